//! What each step on the table tells.
ghost use Rattle.pl_desk.specs.Rule.{took, gave, knew, looked, learned, cut_left, cut_right, glued};
ghost use Rattle.pl_desk.specs.declared.board.Place.TheVariants.{Spent};

use crate::board::{Chronicle, Place};
use atomic_table::{Join, Play, Split};

pub(crate) struct Take;

impl<J: Chronicle> Play<Option<J>, Place<J>> for Take {
    ghost then = { took J.origin J.lines J.number_of };
}

pub(crate) struct Give;

impl<J: Chronicle> Play<Option<J>, Place<J>> for Give {
    ghost then = { gave J.origin J.lines J.number_of };
}

pub(crate) struct Know;

impl<J: Chronicle> Play<Option<J>, Place<J>> for Know {
    ghost then = { knew J.origin J.lines J.number_of };
}

pub(crate) struct Look;

impl<J: Chronicle> Play<Option<J>, Place<J>> for Look {
    ghost then = { looked J.origin J.lines J.number_of };
}

pub(crate) struct Learn;

impl<J: Chronicle> Play<Option<J>, Place<J>> for Learn {
    ghost then = { learned J.origin J.lines J.number_of };
}

pub(crate) struct Cut;

impl<J> Split<Place<J>> for Cut {
    ghost left = { cut_left };

    ghost right = { cut_right };
}

pub(crate) struct Glue;

impl<J> Join<Place<J>> for Glue {
    ghost both = { glued };

    ghost spent = { Spent };
}
