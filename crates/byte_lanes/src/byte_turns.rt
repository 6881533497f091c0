//! Which byte of a literal is searched for alone, and when. This decides only how soon an end is found, not whether.

use crate::tuning::{MOST_CREDIT, START_CREDIT, STOP_COST, WAIT};

/// One of up to three bytes of a literal, the rarest in usual text first.
#[derive(Clone, Copy, Debug)]
pub enum Turn {
    /// The first of them.
    First,
    /// The second, or the last where there are fewer.
    Second,
    /// The third, or the last where there are fewer.
    Third,
}

impl Turn {
    /// The turn before. The first has none, and stays.
    #[inline(always)]
    pub(crate) fn before(self) -> Turn {
        match self {
            Turn::First | Turn::Second => Turn::First,
            Turn::Third => Turn::Second,
        }
    }
}

/// Which byte is searched for alone, and its gain so far. The rarest byte of a text is mostly one of the three that are
/// rare in usual text, but not always the first. So each has a turn, until one is rare.
#[derive(Clone, Copy, Debug)]
pub(crate) struct ByteTurns {
    turn: Turn,
    /// The number of blocks gained, less the cost of the stops.
    credit: usize,
    /// The number of bytes of the text to search next by all bytes of the literals.
    wait: usize,
}

impl ByteTurns {
    /// Before any text.
    #[inline(always)]
    pub fn new() -> ByteTurns {
        ByteTurns {
            turn: Turn::First,
            credit: START_CREDIT,
            wait: 0,
        }
    }

    /// The byte whose turn it is.
    #[inline(always)]
    pub fn turn(&self) -> Turn {
        self.turn
    }

    /// The number of bytes of the text to search by all bytes of the literals, beyond the block at which the last
    /// search stopped.
    #[inline(always)]
    pub fn wait(&self) -> usize {
        self.wait
    }

    /// Notes that the byte was found after `blocks` blocks without it. Call it at each stop; if a literal ends there,
    /// the search for the byte ends too.
    #[inline(always)]
    pub fn note(&mut self, blocks: usize) {
        self.wait = 0;
        self.credit = self.credit.saturating_add(blocks).min(MOST_CREDIT);
        if self.credit >= STOP_COST {
            self.credit -= STOP_COST;
        } else {
            self.pass_on();
        }
    }

    /// The byte is common here: the next one has a turn. After the last comes the first again, once the text was
    /// searched for a while by all of them.
    fn pass_on(&mut self) {
        self.credit = START_CREDIT;
        self.turn = match self.turn {
            Turn::First => Turn::Second,
            Turn::Second => Turn::Third,
            Turn::Third => {
                self.wait = WAIT;
                Turn::First
            }
        };
    }
}
