//! Indexes under the numbers that a catalogue's items have.
ghost use Rattle.std.specs.Prelude.{◌≡◌, ◌≢◌, ℕ, true, false, None};
ghost use Rattle.std.specs.List.{AllByRecursion};
ghost use Rattle.dict_catalogue.specs.Items.{numbers_of};
ghost use Rattle.dict_catalogue.specs.Views.{item_shown};
ghost use Rattle.store_holdings.specs.Indexes.{entries_under, IsGone};

use crate::indexes::Indexes;
use dict_catalogue::Item;

// Whether one of the items has an edition of this number.
fn has_number(items: &[Item], number: u64) -> bool
    ensures apart { result ≡ false → AllByRecursion (λ item. AllByRecursion (λ one. one ≢ number) (numbers_of (item_shown item))) items.now }
    ensures there { result ≡ true → AllByRecursion (λ item. AllByRecursion (λ one. one ≢ number) (numbers_of (item_shown item))) items.now → ⊥ }
{
    for item in items {
        if item_has(item, number) {
            return true;
        }
    }
    false
}

// Whether the item has one.
fn item_has(item: &Item, number: u64) -> bool
    ensures apart { result ≡ false → AllByRecursion (λ one. one ≢ number) (numbers_of (item_shown item.now)) }
    ensures there { result ≡ true → AllByRecursion (λ one. one ≢ number) (numbers_of (item_shown item.now)) → ⊥ }
{
    match item {
        Item::Regular {
            current,
            former,
            ..
        } => match former {
            Some(former) => current.number == number || former.number == number,
            None => current.number == number,
        },
        Item::Virtual { .. } => false,
    }
}

// Lets go of the index under a number, unless one of these items has an edition of it.
fn let_go_unless(indexes: &mut Indexes, number: u64, items: &[Item])
    ensures same { AllByRecursion (λ item. AllByRecursion (λ one. entries_under one indexes.new ≡ entries_under one indexes.old) (numbers_of (item_shown item))) items.now }
    ensures gone { IsGone items.now indexes.new number }
    ensures none { (q : ℕ) → entries_under q indexes.old ≡ None → entries_under q indexes.new ≡ None }
{
    if has_number(items, number) {
        return;
    }
    indexes.let_go(number);
}

// Lets go of the indexes of the item's editions, unless they are editions of these items.
fn let_go_of_item(indexes: &mut Indexes, item: &Item, items: &[Item])
    ensures same { AllByRecursion (λ item. AllByRecursion (λ one. entries_under one indexes.new ≡ entries_under one indexes.old) (numbers_of (item_shown item))) items.now }
    ensures gone { AllByRecursion (IsGone items.now indexes.new) (numbers_of (item_shown item.now)) }
    ensures none { (q : ℕ) → entries_under q indexes.old ≡ None → entries_under q indexes.new ≡ None }
{
    let Item::Regular {
        current,
        former,
        ..
    } = item
    else {
        return;
    };
    let_go_unless(indexes, current.number, items);
    if let Some(former) = former {
        let_go_unless(indexes, former.number, items);
    }
}

/// Lets go of the indexes of editions that were there before and are not after. Under the numbers of those after stands what stood
/// there. It takes no memory.
pub fn let_go_of_gone(indexes: &mut Indexes, before: &[Item], after: &[Item])
    ensures same { AllByRecursion (λ item. AllByRecursion (λ one. entries_under one indexes.new ≡ entries_under one indexes.old) (numbers_of (item_shown item))) after.now }
    ensures gone { AllByRecursion (λ item. AllByRecursion (IsGone after.now indexes.new) (numbers_of (item_shown item))) before.now }
{
    for item in before {
        let_go_of_item(indexes, item, after);
    }
}

// Makes the indexes of the item's editions, as far as there is memory.
fn make_indexes_of(indexes: &mut Indexes, item: &Item)
    ensures { indexes.new ≡ indexes.old }
{
    let Item::Regular {
        current,
        former,
        ..
    } = item
    else {
        return;
    };
    let _ = indexes.make(current.number);
    if let Some(former) = former {
        let _ = indexes.make(former.number);
    }
}

/// Makes the indexes of all editions of the items, as far as there is memory: those that memory is refused for are made when they
/// are asked for.
pub fn make_indexes(indexes: &mut Indexes, items: &[Item])
    ensures { indexes.new ≡ indexes.old }
{
    for item in items {
        make_indexes_of(indexes, item);
    }
}
