//! Worked examples: what a client does, and what it has to find once the workers have carried that
//! on.
ghost use Rattle.std.specs.Prelude.{◌<◌};

use antichain::{Antichain, is_beyond};
use lattice::{Bitime, Minimum};
use oracle::{are_wide, evaluate};
use plan::{NodeId, Plan};
use players::{
    BoardClient, BoardWorker, Crew, are_idle, are_tidy, drawn_steps, driven_until_quiet, opened,
    until_quiet,
};
use std::alloc::Global;
use std::process::Abort;
use std::sync::Wait;
use trials::Draws;
use update::{Bag, Refusal, Update};

/// A worked example.
#[derive(Drop)]
pub(crate) struct Worked<T: Minimum> {
    /// A plan whose inputs have the first numbers, and whose last node is a view.
    pub(crate) plan: Plan,
    /// The changes of each input.
    pub(crate) changes: Vec<Vec<Update<T>>>,
    /// The frontier to which all inputs are advanced in the end.
    pub(crate) frontier: Antichain<T>,
    /// The changes of the view as of that frontier.
    pub(crate) want: Vec<Update<T>>,
    /// The times at which the view is read.
    pub(crate) times: Vec<T>,
}

impl<T: Minimum> Worked<T> {
    /// The view.
    pub(crate) fn view(&self) -> NodeId {
        NodeId::new(self.plan.len().saturating_sub(1))
    }

    // The view at a time, by the plain query.
    fn query(&self, rt: &impl Abort, alloc: Global, time: T) -> Result<Bag, Refusal> {
        let view = self.view();
        assert!(rt; view.number() < self.plan.len());
        assert!(rt; are_wide(&self.plan, &self.changes));
        evaluate(alloc, &self.plan, view, &self.changes, time)
    }
}

impl Worked<Bitime> {
    // The client feeds the changes of one input. After each of them there are drawn steps, fewer
    // than this number.
    fn feed<R: Wait>(
        &self,
        rt: &R,
        alloc: Global,
        client: &mut BoardClient,
        crew: &mut [BoardWorker],
        draws: &mut Draws,
        fewer: u64,
        input: usize,
    ) -> Result<(), Refusal>
        requires { 0 < fewer }
    {
        let Some(changes) = self.changes.get(input) else {
            return Ok(());
        };
        for change in changes {
            client.feed(rt, NodeId::new(input), change.copy())?;
            let count = draws.below(fewer);
            drawn_steps(alloc, crew, draws, count)?;
        }
        Ok(())
    }

    // The client advances all inputs.
    fn advance<R: Wait>(&self, rt: &R, client: &mut BoardClient) -> Result<(), Refusal> {
        for input in 0..self.changes.len() {
            client.advance(rt, NodeId::new(input), &self.frontier)?;
        }
        Ok(())
    }

    /// The client of a new board, who has fed the changes and advanced the inputs. After each
    /// change there were drawn steps of the crew, fewer than this number.
    pub(crate) fn fed<R: Wait>(
        &self,
        rt: &R,
        alloc: Global,
        workers: usize,
        crew: &mut Crew,
        draws: &mut Draws,
        fewer: u64,
    ) -> Result<BoardClient, Refusal>
        requires { 0 < fewer }
    {
        let mut client = opened(rt, alloc, &self.plan, workers, crew)?;
        for input in 0..self.changes.len() {
            self.feed(rt, alloc, &mut client, crew, draws, fewer, input)?;
        }
        self.advance(rt, &mut client)?;
        Ok(client)
    }

    // If the inputs are advanced beyond the time, then the client reads what the plain query has.
    // Otherwise the read is refused.
    fn assert_read<R: Wait + Abort>(
        &self,
        rt: &R,
        alloc: Global,
        client: &mut BoardClient,
        time: Bitime,
    ) -> Result<(), Refusal> {
        let read = client.read(rt, self.view(), time);
        if is_beyond(self.frontier.elements(), &time) {
            assert!(rt; matches!(read, Err(Refusal::NotPassed)));
            return Ok(());
        }
        let want = self.query(rt, alloc, time)?;
        assert!(rt; read? == want);
        Ok(())
    }

    // The client of a new board, once the crew has carried on what it did, in an order that is
    // drawn. A step of each worker finds the board quiet then, and each can tidy its desk to the
    // end.
    fn carried_on<R: Wait + Abort>(
        &self,
        rt: &R,
        alloc: Global,
        workers: usize,
        crew: &mut Crew,
        seed: u64,
    ) -> Result<BoardClient, Refusal> {
        let mut draws = Draws::new(seed);
        let client = self.fed(rt, alloc, workers, crew, &mut draws, 4)?;
        assert!(rt; until_quiet(alloc, crew, &mut draws)?);
        assert!(rt; are_idle(alloc, crew)?);
        assert!(rt; are_tidy(alloc, crew)?);
        Ok(client)
    }

    /// The client finds the view's frontier and changes, and its rows at each of the times.
    pub(crate) fn assert_found<R: Wait + Abort>(
        &self,
        rt: &R,
        alloc: Global,
        client: &mut BoardClient,
    ) -> Result<(), Refusal> {
        let frontier = client.frontier(rt, self.view())?;
        assert!(rt; frontier.elements() == self.frontier.elements());
        let changes = client.changes(rt, self.view())?;
        assert!(rt; changes.as_slice() == self.want.as_slice());
        for time in &self.times {
            self.assert_read(rt, alloc, client, *time)?;
        }
        Ok(())
    }

    // So many workers carry the example on in one order, and the client finds what it has to find.
    fn assert_carried<R: Wait + Abort>(
        &self,
        rt: &R,
        alloc: Global,
        workers: usize,
        seed: u64,
    ) -> Result<(), Refusal> {
        let mut crew: Crew = Vec::new(alloc);
        let mut client = self.carried_on(rt, alloc, workers, &mut crew, seed)?;
        client.set_waiting(seed % 2 == 0);
        self.assert_found(rt, alloc, &mut client)
    }

    // So many workers carry the example on in rounds, always with their last piece, and tidy by
    // units.
    fn assert_driven<R: Wait + Abort>(
        &self,
        rt: &R,
        alloc: Global,
        workers: usize,
    ) -> Result<(), Refusal> {
        let mut crew: Crew = Vec::new(alloc);
        let mut client = self.fed(rt, alloc, workers, &mut crew, &mut Draws::new(0), 1)?;
        assert!(rt; driven_until_quiet(rt, alloc, &mut crew, &mut client)?);
        self.assert_found(rt, alloc, &mut client)
    }

    /// So many workers carry the example on, in each of ten orders, and in rounds.
    pub(crate) fn assert_by<R: Wait + Abort>(
        &self,
        rt: &R,
        alloc: Global,
        workers: usize,
    ) -> Result<(), Refusal> {
        for seed in 0..10 {
            self.assert_carried(rt, alloc, workers, seed)?;
        }
        self.assert_driven(rt, alloc, workers)
    }
}
