//! How operators and collections are named where they are printed.

ghost use Rattle.std.specs.Prelude.{Some};
ghost use Rattle.syntax.specs.Printed.{unary_name, binary_name, connective_name, quantifier_name, collection_name};

use crate::{Binary, Collection, Connective, Quantifier, Unary};
use std::fmt;

impl fmt::Display for Unary {
    ghost output = { λ op. Some (unary_name op) };

    fn fmt<W: fmt::Write>(&self, f: &mut fmt::Formatter<W>) -> fmt::Result {
        f.write_str(match self {
            Unary::Not => "not",
            Unary::Negate => "-",
            Unary::Abs => "abs",
            Unary::Card => "card",
            Unary::Len => "len",
            Unary::Hd => "hd",
            Unary::Tl => "tl",
            Unary::Elems => "elems",
            Unary::Inds => "inds",
        })
    }
}

impl fmt::Display for Binary {
    ghost output = { λ op. Some (binary_name op) };

    fn fmt<W: fmt::Write>(&self, f: &mut fmt::Formatter<W>) -> fmt::Result {
        f.write_str(match self {
            Binary::Iff => "<=>",
            Binary::Equal => "=",
            Binary::NotEqual => "<>",
            Binary::Less => "<",
            Binary::LessEqual => "<=",
            Binary::Greater => ">",
            Binary::GreaterEqual => ">=",
            Binary::Subset => "subset",
            Binary::ProperSubset => "psubset",
            Binary::InSet => "in set",
            Binary::NotInSet => "not in set",
            Binary::Plus => "+",
            Binary::Minus => "-",
            Binary::Union => "union",
            Binary::Difference => "\\",
            Binary::Concat => "^",
            Binary::Times => "*",
            Binary::Div => "div",
            Binary::Rem => "rem",
            Binary::Mod => "mod",
            Binary::Inter => "inter",
            Binary::Apply => "apply",
        })
    }
}

impl fmt::Display for Connective {
    ghost output = { λ op. Some (connective_name op) };

    fn fmt<W: fmt::Write>(&self, f: &mut fmt::Formatter<W>) -> fmt::Result {
        f.write_str(match self {
            Connective::Implies => "=>",
            Connective::Or => "or",
            Connective::And => "and",
        })
    }
}

impl fmt::Display for Quantifier {
    ghost output = { λ op. Some (quantifier_name op) };

    fn fmt<W: fmt::Write>(&self, f: &mut fmt::Formatter<W>) -> fmt::Result {
        f.write_str(match self {
            Quantifier::Forall => "forall",
            Quantifier::Exists => "exists",
        })
    }
}

impl fmt::Display for Collection {
    ghost output = { λ kind. Some (collection_name kind) };

    fn fmt<W: fmt::Write>(&self, f: &mut fmt::Formatter<W>) -> fmt::Result {
        f.write_str(match self {
            Collection::Set => "set",
            Collection::Sequence => "sequence",
            Collection::Tuple => "tuple",
        })
    }
}
