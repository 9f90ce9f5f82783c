//! The words of a subcommand as rows of a table, and the arguments of clap that they make.
use crate::names::FILE;
use clap::builder::ValueParser;
use clap::{Arg, ArgAction};
use std::alloc::{AllocError, Global};

const FILE_HELP: &str = "The file to read in place of standard input; - is standard input";

/// A word that is written behind two hyphens.
#[derive(Clone, Copy)]
pub struct Word {
    /// The word.
    pub name: &'static str,
    /// What help says of it.
    pub help: &'static str,
    /// What its use does.
    pub action: ArgAction,
    /// What help calls the value behind it, if there is one.
    pub value_names: &'static [&'static str],
    /// What the value may be.
    pub bounds: ValueParser<'static>,
    /// The words that it rules out.
    pub rules_out: &'static [&'static str],
    /// The words beside which alone it stands.
    pub needs: &'static [&'static str],
}

impl Word {
    /// A word that asks for more, and has no value.
    pub const FLAG: Word = Word {
        name: "",
        help: "",
        action: ArgAction::SetTrue,
        value_names: &[],
        bounds: ValueParser::Bool,
        rules_out: &[],
        needs: &[],
    };

    /// A word with any text behind it.
    pub const TEXT: Word = Word {
        action: ArgAction::Set,
        bounds: ValueParser::String,
        ..Word::FLAG
    };

    // The word as clap takes it. A number below zero behind it is its value, and refused as that.
    fn to_arg<'a>(&self, alloc: Global) -> Result<Arg<'a>, AllocError> {
        Arg::new(alloc, self.name)
            .long(self.name)
            .help(self.help)
            .action(self.action)
            .value_names(self.value_names)
            .value_parser(self.bounds)
            .allow_negative_numbers(!self.value_names.is_empty())
            .conflicts_with_all(self.rules_out)?
            .requires_all(self.needs)
    }
}

/// What stands behind the words, with no hyphens.
#[derive(Clone, Copy)]
pub struct Place {
    /// What help calls it.
    pub name: &'static str,
    /// What help says of it.
    pub help: &'static str,
    /// Whether it has to be there.
    pub is_required: bool,
    /// Whether several may stand there.
    pub is_many: bool,
}

impl Place {
    /// The file to be read, which may be left out.
    pub const INPUT: Place = Place {
        name: FILE,
        help: FILE_HELP,
        is_required: false,
        is_many: false,
    };

    // The place as clap takes it.
    fn to_arg<'a>(&self, alloc: Global) -> Arg<'a> {
        let arg = Arg::new(alloc, self.name)
            .action(ArgAction::Set)
            .help(self.help)
            .required(self.is_required);
        if self.is_many { arg.num_args(1..) } else { arg }
    }
}

/// The arguments of a subcommand that has these words, and this behind them.
pub fn args_of<'a>(
    alloc: Global,
    words: &[Word],
    place: &Place,
) -> Result<Vec<Arg<'a>>, AllocError> {
    let mut args = Vec::new(alloc);
    for word in words {
        args.push(word.to_arg(alloc)?)?;
    }
    args.push(place.to_arg(alloc))?;
    Ok(args)
}
