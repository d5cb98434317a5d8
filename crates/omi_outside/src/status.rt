// What a program ends with.
ghost use Rattle.std.specs.Prelude.{◌≡◌};
ghost use Rattle.omi_outside.specs.Status.{code_of};

/// What a program ends with.
#[derive(Clone, Copy, Debug, PartialEq, Eq)]
pub enum Status {
    /// The command did what it is for.
    Success,
    /// The words of the command line are refused.
    Usage,
    /// A file that is to be read isn't there.
    NoFile,
    /// A read of a file failed.
    ReadFault,
    /// A write of a file or of the output failed.
    WriteFault,
    /// The grammar of scripts refuses the script.
    Script,
    /// The grammar of core files refuses the core.
    Core,
    /// The layout table in the core's words is wrong, or a word that the report needs is not there, leads to no live record, or comes
    /// back to a record.
    Damaged,
    /// The core's words have no layout table of version 1.
    Incompatible,
    /// Memory ran out.
    OutOfMemory,
}

impl Status {
    /// The exit status of the process.
    pub fn code(&self) -> u8
        ensures { result ≡ code_of self.now }
    {
        match self {
            Status::Success => 0,
            Status::Usage => 1,
            Status::NoFile => 2,
            Status::ReadFault => 3,
            Status::WriteFault => 4,
            Status::Script => 5,
            Status::Core => 6,
            Status::Damaged => 7,
            Status::Incompatible => 8,
            Status::OutOfMemory => 9,
        }
    }
}
