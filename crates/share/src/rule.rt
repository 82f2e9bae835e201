ghost use Rattle.std.specs.Prelude.{◌≡◌, Some};
ghost use Rattle.std.specs.Option.{ok_or};
ghost use Rattle.share.specs.Rules.{named, rule_word};
ghost use Rattle.share.specs.declared.failure.Failure.TheVariants.{Usage};

use super::failure::Failure;
use std::fmt;
use std::str::FromStr;

// A sharing rule, by its word on the command line.
#[derive(Clone, Copy, PartialEq, Eq, Debug)]
pub enum Rule {
    Proportional,
    Remainder,
    Time,
}

// Prints the rule's word.
impl fmt::Display for Rule {
    ghost output = { λ rule. Some (rule_word rule) };

    fn fmt<W: fmt::Write>(&self, f: &mut fmt::Formatter<W>) -> fmt::Result {
        f.write_str(match self {
            Rule::Proportional => "proportional",
            Rule::Remainder => "remainder",
            Rule::Time => "time",
        })
    }
}

// Reads the rule's word.
impl FromStr for Rule {
    type Err = Failure;

    ghost from_str_gives = { λ word r. r ≡ ok_or (named word) Usage };

    fn from_str(word: &str) -> Result<Rule, Failure> {
        match word {
            "proportional" => Ok(Rule::Proportional),
            "remainder" => Ok(Rule::Remainder),
            "time" => Ok(Rule::Time),
            _ => Err(Failure::Usage),
        }
    }
}
