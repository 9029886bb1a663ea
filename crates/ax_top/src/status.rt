/// How a call of the program ended.
#[derive(Clone, Copy, Debug, PartialEq, Eq)]
pub enum Status {
    /// The script was read to its end and performed, and all text was written.
    Done,
    /// The words are not in the program's grammar.
    Usage,
    /// The script is refused; the message names its first fault.
    Script,
    /// The source failed.
    ReadFault,
    /// The sink failed.
    WriteFault,
    /// The keeper failed.
    KeeperFault,
    /// The kept tables are not valid.
    BadRows,
    /// The kept tables are those of another sheet.
    OtherSheet,
    /// Memory was wanting.
    Memory,
}
