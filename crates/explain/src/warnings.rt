//! Warnings: what a run will refuse, or what is of no use, in a file without a fault.
use crate::excerpt::{push_excerpt, span_at};
use crate::teller::Teller;
use crate::uses::{Use, no_uses, note, use_at, uses_of};
use grammar::{Command, InputCommand, Reader, Script, ViewCommand};
use indexmap::{IndexMap, IndexSet};
use plan::{NodeId, Plan};
use row::Row;
use std::alloc::{AllocError, Global};

// The greatest difference that a run takes.
const MAX_DIFFERENCE: u64 = 2_147_483_647;

// A row of an input.
#[derive(PartialEq, Eq, Hash, Drop)]
struct InputRow {
    input: usize,
    row: Row,
}

// A line of the file, and its number.
#[derive(Clone, Copy)]
struct Spot<'l> {
    number: u64,
    line: &'l [u8],
}

/// Tells what to mind in a file without a fault.
#[derive(Drop)]
pub(crate) struct WarningTeller<'s> {
    script: &'s Script,
    reader: Reader,
    // What all commands do with each node.
    uses: Vec<Use>,
    // What the commands so far did with each node.
    so_far: Vec<Use>,
    // The views whose inputs have all moved, so that they need not be looked at again.
    settled: IndexSet<usize>,
    // The index of the next command.
    next: usize,
    // For each row of an input the sum of its differences so far, at all times.
    sums: IndexMap<InputRow, i64>,
    warnings: u64,
}

impl<'s> WarningTeller<'s> {
    /// Tells about this script.
    pub(crate) fn new(alloc: Global, script: &'s Script) -> Result<WarningTeller<'s>, AllocError> {
        let uses = uses_of(alloc, script)?;
        let so_far = no_uses(alloc, script)?;
        Ok(WarningTeller {
            script,
            reader: Reader::new(alloc),
            uses,
            so_far,
            settled: IndexSet::new(alloc),
            next: 0,
            sums: IndexMap::new(alloc),
            warnings: 0,
        })
    }

    /// How many warnings there are.
    pub(crate) fn warnings(&self) -> u64 {
        self.warnings
    }

    // Adds a warning about the word with this index.
    fn push(
        &mut self,
        alloc: Global,
        text: &mut String,
        spot: &Spot<'_>,
        index: usize,
        warning: &str,
    ) -> Result<(), AllocError> {
        self.warnings = self.warnings.saturating_add(1);
        let number = spot.number;
        writeln!(text, "line {number} warning: {warning}")?;
        push_excerpt(alloc, text, spot.line, span_at(spot.line, Some(index)))
    }

    // Warns of a view that is of no use, or of an input that keeps views from being read.
    fn warn_of_node(
        &mut self,
        alloc: Global,
        text: &mut String,
        spot: &Spot<'_>,
        id: NodeId,
    ) -> Result<(), AllocError> {
        match self.node_warning(id) {
            Some(warning) => self.push(alloc, text, spot, 1, warning),
            None => Ok(()),
        }
    }

    fn node_warning(&self, id: NodeId) -> Option<&'static str> {
        let plan = self.script.plan();
        if id.number() >= plan.len() {
            return None;
        }
        let of = use_at(&self.uses, id);
        if plan.node(id).is_output() && !of.is_asked {
            Some("no line asks about this view")
        } else if plan.node(id).is_input() && !of.is_moved && self.feeds_read(plan, id) {
            Some("no line advances or closes this input, so no view that it feeds can be read")
        } else {
            None
        }
    }

    // Whether a line reads a view that the input feeds.
    fn feeds_read(&self, plan: &Plan, input: NodeId) -> bool {
        for number in 0..plan.len() {
            let view = NodeId::new(number);
            if use_at(&self.uses, view).is_read && plan.reaches(input, view) {
                return true;
            }
        }
        false
    }

    // Warns of a command that a run refuses, or that takes back what was not there.
    fn warn_of_command(
        &mut self,
        alloc: Global,
        text: &mut String,
        spot: &Spot<'_>,
        command: &Command,
    ) -> Result<(), AllocError> {
        match command {
            Command::Input(
                InputCommand::Change {
                    input,
                    diff,
                    row,
                    ..
                },
            ) => self.warn_of_change(alloc, text, spot, *input, *diff, row),
            Command::View(ViewCommand::Read { view, .. }) => {
                self.warn_of_read(alloc, text, spot, *view)
            }
            _ => Ok(()),
        }
    }

    fn warn_of_change(
        &mut self,
        alloc: Global,
        text: &mut String,
        spot: &Spot<'_>,
        input: NodeId,
        diff: i64,
        row: &Row,
    ) -> Result<(), AllocError> {
        let columns = row.width();
        let width = width_at(self.script.plan(), input);
        if columns != width {
            let warning = format!(in alloc;
                "a row of {columns} columns, and the input has {width}; a run refuses the line with 2"
            )?;
            return self.push(alloc, text, spot, 5, warning.as_str());
        }
        match difference_warning(diff) {
            Some(warning) => self.push(alloc, text, spot, 4, warning),
            None => self.warn_of_sum(alloc, text, spot, input, diff, row),
        }
    }

    // Warns of a change by which more of the row is taken back than was there.
    fn warn_of_sum(
        &mut self,
        alloc: Global,
        text: &mut String,
        spot: &Spot<'_>,
        input: NodeId,
        diff: i64,
        row: &Row,
    ) -> Result<(), AllocError> {
        let sum = self.add(input, diff, row)?;
        if diff >= 0 || sum >= 0 {
            return Ok(());
        }
        let warning = format!(in alloc;
            "takes back a row that did not stand: its differences so far add to {sum}"
        )?;
        self.push(alloc, text, spot, 5, warning.as_str())
    }

    // Adds the difference to those of the row, and returns the sum.
    fn add(&mut self, input: NodeId, diff: i64, row: &Row) -> Result<i64, AllocError> {
        let key = InputRow {
            input: input.number(),
            row: row.copy(),
        };
        let before = match self.sums.get(&key) {
            Some(sum) => *sum,
            None => 0,
        };
        let sum = before.saturating_add(diff);
        self.sums.insert(key, sum)?;
        Ok(sum)
    }

    // Warns of a read that comes before the view's inputs have moved.
    fn warn_of_read(
        &mut self,
        alloc: Global,
        text: &mut String,
        spot: &Spot<'_>,
        view: NodeId,
    ) -> Result<(), AllocError> {
        let script = self.script;
        if self.settled.contains(&view.number()) {
            return Ok(());
        }
        let Some(input) = self.unmoved(script.plan(), view) else {
            self.settled.insert(view.number())?;
            return Ok(());
        };
        if input.number() >= script.plan().len() {
            return Ok(());
        }
        let name = script.name(input);
        let warning = format!(in alloc;
            "the input `{name}` feeds the view, and no line before advances or closes it; a run refuses the line with 8"
        )?;
        self.push(alloc, text, spot, 1, warning.as_str())
    }

    // An input that feeds the view and has not moved so far.
    fn unmoved(&self, plan: &Plan, view: NodeId) -> Option<NodeId> {
        if view.number() >= plan.len() {
            return None;
        }
        for number in 0..plan.len() {
            let id = NodeId::new(number);
            let is_still = plan.node(id).is_input() && !use_at(&self.so_far, id).is_moved;
            if is_still && plan.reaches(id, view) {
                return Some(id);
            }
        }
        None
    }

    // The command of this line, if it has one.
    fn command_of(&mut self, number: u64) -> Option<&'s Command> {
        let line = self.script.command_lines().get(self.next)?;
        if line.line != number {
            return None;
        }
        self.next = self.next.saturating_add(1);
        Some(&line.command)
    }
}

// How many columns the rows of the input have.
fn width_at(plan: &Plan, input: NodeId) -> usize {
    if input.number() < plan.len() {
        plan.width(input)
    } else {
        0
    }
}

// What is wrong with a difference that a run refuses.
fn difference_warning(diff: i64) -> Option<&'static str> {
    if diff == 0 {
        Some("the difference is 0; a run refuses the line with 3")
    } else if diff.unsigned_abs() > MAX_DIFFERENCE {
        Some(
            "the difference is above 2147483647 or below -2147483647; a run refuses the line with 4",
        )
    } else {
        None
    }
}

impl<'a, 's> Teller<'a> for WarningTeller<'s> {
    fn tell_line(
        &mut self,
        alloc: Global,
        number: u64,
        line: &'a [u8],
        text: &mut String,
    ) -> Result<(), AllocError> {
        let node = self.reader.names();
        let mut words = Vec::new(alloc);
        // The file has no fault, so what is refused here is memory.
        if self.reader.take(alloc, number, line, &mut words).is_err() {
            return Err(AllocError);
        }
        let spot = Spot { number, line };
        if self.reader.names() > node {
            return self.warn_of_node(alloc, text, &spot, NodeId::new(node));
        }
        match self.command_of(number) {
            Some(command) => {
                self.warn_of_command(alloc, text, &spot, command)?;
                note(&mut self.so_far, command);
                Ok(())
            }
            None => Ok(()),
        }
    }

    // Nothing is told of the whole file.
    fn tell_end(&mut self, _alloc: Global, _text: &mut String) -> Result<(), AllocError> {
        Ok(())
    }
}
