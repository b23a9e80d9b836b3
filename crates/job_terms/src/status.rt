/// How the program ends; its number is the exit status.
#[derive(Clone, Copy, Debug, PartialEq, Eq)]
pub enum Status {
    /// The work is done.
    Done,
    /// The words have no meaning.
    Usage,
    /// The text is refused.
    Refused,
    /// The run of the program trapped.
    Trapped,
    /// The limit was reached.
    Limit,
    /// The source of bytes failed; nothing was written.
    ReadFault,
    /// The sink failed; some of what is due was written, from the beginning.
    WriteFault,
    /// There was no memory; nothing was written.
    NoMemory,
}
