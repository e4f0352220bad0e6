// How many patterns a tree stands for.
ghost use Rattle.std.specs.Prelude.{◌≡◌, ◌-◌, ◌^◌, min, map, true};
ghost use Rattle.std.specs.List.{list_all};
ghost use Rattle.tree_meaning.specs.Patterns as means;

use crate::values::number_count;
use sled_parser::tree::PatternTree;

fn part_choices(part: &PatternTree) -> u64
    requires { means.has_part_in_range part.now ≡ true }
    ensures { result ≡ means.part_choices part.now }
{
    match part {
        PatternTree::Limit { value, .. } => number_count(value),
        _ => 1,
    }
}

/// How many patterns the tree of these parts stands for, or 2^64 - 1 where they are more.
pub fn choice_count(parts: &[&PatternTree]) -> u64
    requires { list_all means.has_part_in_range (map (λ part. part.now) parts.now) ≡ true }
    ensures { result ≡ min (means.choices_among (map (λ part. part.now) parts.now)) (2 ^ 64 - 1) }
{
    let mut count = 1u64;
    for part in parts {
        count = count.saturating_mul(part_choices(part));
    }
    count
}
