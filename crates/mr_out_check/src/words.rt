//! The words for answers, classes and premises.
ghost use Rattle.std.specs.Prelude.{◌≡◌};
ghost use Rattle.mr_out_check.specs.Report.{answer_word, broken_reason, class_words, open_reason, premise_word};

use crate::class::Class;
use crate::premise::Premise;
use crate::verdict::Answer;

/// The word for an answer.
pub fn answer_word(answer: Answer) -> &'static str
    ensures { result.now ≡ answer_word answer }
{
    match answer {
        Answer::Yes => "yes",
        Answer::No => "no",
        Answer::ItDepends => "it depends",
    }
}

pub(crate) fn class_words(class: Class) -> &'static str
    ensures { result.now ≡ class_words class }
{
    match class {
        Class::Marker => "marker",
        Class::MarkerWithBytes => "marker with bytes",
        Class::MarkerFolder => "marker that is no file",
        Class::ReducePart => "part files of reduces",
        Class::MapPart => "part files of maps",
        Class::PlainPart => "part files",
        Class::Temporary => "folder _temporary",
        Class::TemporaryClosed => "folder _temporary, not listed",
        Class::Generation => "generations of the master",
        Class::CommittedTask => "committed tasks",
        Class::TaskAttempt => "task attempts",
        Class::OtherWork => "other work",
        Class::Mrout => "names of mrout",
        Class::Spark => "files of Spark",
        Class::Hive => "files of Hive",
        Class::Partition => "partitions",
        Class::CommitMark => "marks of Databricks",
        Class::DeltaLog => "names of a Delta log",
        Class::Hidden => "hidden names",
        Class::Folder => "folders",
        Class::InFolder => "names in folders",
        Class::Foreign => "other names",
    }
}

// The word that settles the premise, where there is one.
pub(crate) fn premise_word(premise: Premise) -> &'static str
    ensures { result.now ≡ premise_word premise }
{
    match premise {
        Premise::Marker => "marker",
        Premise::WorkDone => "work",
        Premise::Tasks => "tasks",
        Premise::Numbers => "numbers",
        Premise::Family => "family",
        Premise::Names => "names",
        Premise::Mrout => "mrout",
        Premise::AppAttempts => "app-attempts",
        Premise::TaskAttempts => "task-attempts",
        Premise::Algorithm => "algorithm",
        Premise::Store => "store",
        Premise::Order => "listed-after-marker",
    }
}

// Why the premise is broken.
pub(crate) fn broken_reason(premise: Premise) -> &'static str
    ensures { result.now ≡ broken_reason premise }
{
    match premise {
        Premise::Marker => "there is no empty file _SUCCESS",
        Premise::WorkDone => "work is left beneath _temporary: the job runs, or it was stopped",
        Premise::Tasks => "a part file of the tasks that are told is missing",
        Premise::Numbers
        | Premise::Family
        | Premise::Names
        | Premise::Mrout
        | Premise::AppAttempts
        | Premise::TaskAttempts
        | Premise::Algorithm
        | Premise::Store
        | Premise::Order => "",
    }
}

// Why it is open, and how one learns more.
pub(crate) fn open_reason(premise: Premise) -> &'static str
    ensures { result.now ≡ open_reason premise }
{
    match premise {
        Premise::Marker => "_SUCCESS has bytes, so another committer made it",
        Premise::WorkDone => "what stands in _temporary was not listed: list with -R",
        Premise::Tasks =>
            "tell with --tasks N how many part files there are to be, and no more may be there (not tried here: the job's page of the history server)",
        Premise::Numbers => "there is no part file, or a number is missing or comes twice",
        Premise::Family => "the part files are of more than one family",
        Premise::Names => "there are names that the committer of a job does not make",
        Premise::Mrout => "it is a directory of mrout, whose history decides",
        Premise::AppAttempts =>
            "tell with --app-attempts 1 that the job had one application attempt (not tried here: yarn applicationattempt -list APPLICATION); with more the answer is never yes",
        Premise::TaskAttempts =>
            "tell with --task-attempts 1 that each task had one attempt (not tried here: the job's page of the history server); with more the answer is never yes",
        Premise::Algorithm =>
            "tell with --algorithm 1 that tasks publish in the job commit (mapreduce.fileoutputcommitter.algorithm.version); of version 2 the answer is never yes, so run the job with version 1",
        Premise::Store =>
            "tell with --store local or hdfs that a rename happens whole; of an object store the answer is never yes",
        Premise::Order =>
            "tell with --listed-after-marker that _SUCCESS was seen before the listing began",
    }
}
