// What a pattern stands among.
ghost use Rattle.std.specs.Prelude.{◌≡◌, ◌≤◌, slice_get, length};
ghost use Rattle.sled_model.specs.Results.{results_from};
ghost use Rattle.sled_model.specs.PatternContexts.{known_in, IsPatternContext};

use crate::{Constructor, Match, MatchList, OperandKind};
use sqlite_items::{Items, at as item_at};
use token_bits::Tokens;

/// What a pattern stands among, over a window: the operands of the body that it is in, and the constructors before that one. Number k
/// of `bodies` has the results of constructor number k's body at each offset of the window.
#[derive(Clone, Copy)]
pub(crate) struct PatternContext<'a> {
    pub(crate) tokens: &'a Tokens,
    pub(crate) operands: &'a [OperandKind],
    pub(crate) constructors: &'a [Constructor],
    pub(crate) bodies: &'a [Items<MatchList>],
    pub(crate) window: &'a [u8],
}

impl<'a> PatternContext<'a> {
    /// The results of constructor number k's body at the offset, or none where there is no such constructor.
    pub(crate) fn body_at(&self, k: usize, at: usize) -> &'a [Match]
        requires near { IsPatternContext self.now }
        requires at { at ≤ length self.now.window.now }
        ensures { result.now ≡ results_from (slice_get (known_in self.now) k) (λ c. c.body self.now.window.now at) }
    {
        match item_at(self.bodies, k) {
            None => &[],
            Some(row) => match row.get(at) {
                None => &[],
                Some(found) => found.as_slice(),
            },
        }
    }
}
