// The numbers of a recipe's items. The items of a step are lent as the list and the first of them, and not as a struct of the two: each contract would read `self.entry.list.now` and `self.entry.first` for `items.now` and `first`.
ghost use Rattle.std.specs.Prelude.{◌≡◌, ◌+◌};
ghost use Rattle.recipe_types.specs.Recipes.{item_number};

use recipe_types::number;

// How many numbers an item has.
const ITEM_SIZE: u64 = 3;

// The numbers of a block.
pub const BLOCK_LENGTH: u64 = 0;

pub const DISPLACEMENT: u64 = 1;

// The numbers of a dimension.
pub const SIZE: u64 = 0;

pub const SUBSIZE: u64 = 1;

pub const START: u64 = 2;

// Number `which` of item `i` from item `first` on, 0 past the end of the list. A place that does not fit 64 bits is past it too, and so is the greatest number that does.
#[tactic(auto, unfolding(recipe_types::specs::Recipes::item_number))]
pub fn item_number(items: &[u64], first: u64, i: u64, which: u64) -> u64
    ensures { result ≡ item_number items.now (first + i) which }
{
    let item = first.saturating_add(i);
    let at = item.saturating_mul(ITEM_SIZE).saturating_add(which);
    number(items, at as usize)
}
