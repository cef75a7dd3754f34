// The forms of statements and expressions, by their numbers in document 01.
ghost use Rattle.std.specs.Prelude.{◌≡◌};
ghost use Rattle.program.specs.Forms.{form_of, verb_of};

use crate::{Form, Verb};

impl From<usize> for Verb {
    ghost from_gives = { λ n v. v ≡ verb_of n };

    #[tactic(auto, unfolding(crate::specs::Forms::verb_of))]
    fn from(n: usize) -> Verb {
        match n {
            0 => Verb::Skip,
            1 => Verb::Assign,
            2 => Verb::New,
            3 => Verb::Always,
            4 => Verb::Once,
            5 => Verb::AlwaysSame,
            6 => Verb::OnceSame,
            7 => Verb::If,
            8 => Verb::While,
            _ => Verb::Unknown,
        }
    }
}

impl From<usize> for Form {
    ghost from_gives = { λ n f. f ≡ form_of n };

    #[tactic(auto, unfolding(crate::specs::Forms::form_of))]
    fn from(n: usize) -> Form {
        match n {
            20 => Form::Nil,
            21 => Form::False,
            22 => Form::True,
            23 => Form::Integer,
            24 => Form::Path,
            25 => Form::Operation,
            26 => Form::Identity,
            _ => Form::Unknown,
        }
    }
}
