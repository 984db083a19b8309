//! How a run ends.

/// How a run ended.
#[derive(Clone, Copy, Debug, PartialEq, Eq)]
pub enum Status {
    /// The input was read to its end or to `quit`, and every reply is written.
    Done,
    /// The program's words aren't a form that it knows. A run of a service never ends so.
    BadWords,
    /// Reading failed.
    ReadFault,
    /// Writing failed.
    WriteFault,
    /// Memory ran out.
    NoMemory,
    /// The input has more bytes than are read.
    InputLimit,
}
