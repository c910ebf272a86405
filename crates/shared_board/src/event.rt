//! What is done in one tenure, as the history of a hub has it.
use machine::Event;
use plan::Plan;

/// An event on a board, and how the board was opened. No value of it is made. Since each entry of a
/// history names the dataflow, an actor that has seen one entry knows it for good.
pub struct BoardEvent<T> {
    /// The plan of the board.
    pub plan: Plan,
    /// The number of workers.
    pub workers: usize,
    /// How many actors share the board: the workers, and the clients after them.
    pub actors: usize,
    /// The event.
    pub event: Event<T>,
}
