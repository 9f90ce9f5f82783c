//! The classes of names in a job's output directory.
ghost use Rattle.std.specs.Prelude.{◌≡◌};
ghost use Rattle.mr_out_check.specs.Classes.{is_strange, is_work, place_of, same_class};

/// What a name in a job's output directory is.
#[derive(Clone, Copy, Debug)]
pub enum Class {
    /// The empty file `_SUCCESS`.
    Marker,
    /// A file `_SUCCESS` with bytes: a committer of an object store makes one.
    MarkerWithBytes,
    /// `_SUCCESS` that is no file.
    MarkerFolder,
    /// A reduce's part file, `part-r-00000`.
    ReducePart,
    /// A map's part file, `part-m-00000`, of a job that has no reduce.
    MapPart,
    /// A part file of the older interface, `part-00000`.
    PlainPart,
    /// The folder `_temporary`.
    Temporary,
    /// The folder `_temporary`, in a listing that does not tell what stands in it.
    TemporaryClosed,
    /// What stands in it: a generation of the master.
    Generation,
    /// What a task has committed, in a generation.
    CommittedTask,
    /// The folder of a task attempt, in a generation's `_temporary`.
    TaskAttempt,
    /// Anything else beneath `_temporary`.
    OtherWork,
    /// The folder `_mrout`, or what stands beneath it.
    Mrout,
    /// A part file of Spark.
    Spark,
    /// A file of Hive.
    Hive,
    /// A folder of a partition, `dt=2026-11-28`.
    Partition,
    /// A mark of Databricks' commit protocol.
    CommitMark,
    /// The log of a Delta table.
    DeltaLog,
    /// Any other name that begins with `_` or `.`, or what stands beneath one.
    Hidden,
    /// A folder.
    Folder,
    /// What stands in one.
    InFolder,
    /// Any other name.
    Foreign,
}

impl Class {
    // Its place among the classes.
    fn place(self) -> u8
        ensures { result ≡ place_of self }
    {
        match self {
            Class::Marker => 0,
            Class::MarkerWithBytes => 1,
            Class::MarkerFolder => 2,
            Class::ReducePart => 3,
            Class::MapPart => 4,
            Class::PlainPart => 5,
            Class::Temporary => 6,
            Class::TemporaryClosed => 7,
            Class::Generation => 8,
            Class::CommittedTask => 9,
            Class::TaskAttempt => 10,
            Class::OtherWork => 11,
            Class::Mrout => 12,
            Class::Spark => 13,
            Class::Hive => 14,
            Class::Partition => 15,
            Class::CommitMark => 16,
            Class::DeltaLog => 17,
            Class::Hidden => 18,
            Class::Folder => 19,
            Class::InFolder => 20,
            Class::Foreign => 21,
        }
    }

    // Whether the two are one.
    pub(crate) fn is(self, other: Class) -> bool
        ensures { result ≡ same_class self other }
    {
        self.place() == other.place()
    }

    // Whether it is a job's work that is no output yet.
    pub(crate) fn is_work(self) -> bool
        ensures { result ≡ is_work self }
    {
        matches!(
            self,
            Class::Generation | Class::CommittedTask | Class::TaskAttempt | Class::OtherWork
        )
    }

    // Whether the committer of a job makes no such name.
    pub(crate) fn is_strange(self) -> bool
        ensures { result ≡ is_strange self }
    {
        matches!(
            self,
            Class::Spark
                | Class::Hive
                | Class::Partition
                | Class::CommitMark
                | Class::DeltaLog
                | Class::Folder
                | Class::InFolder
                | Class::Foreign
        )
    }
}
