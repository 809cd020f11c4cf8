ghost use Rattle.std.specs.List.{list_any};
ghost use Rattle.std.specs.Prelude.{◌≡◌, IfOk};
ghost use Rattle.settlement_definitions.specs.Classes.{distinct_by};
ghost use Rattle.settle_classes.specs.Bets.{same_bet};

use scan_types::{Offer, WantOfMemory};
use std::alloc::Global;

/// Whether the offers are of one selection and rule.
fn is_same_bet(one: &Offer, other: &Offer) -> bool
    ensures { result ≡ same_bet one.now other.now }
{
    one.selection.number() == other.selection.number() && one.rule == other.rule
}

/// Whether one of the bets is of the offer's selection and rule.
fn has_bet(bets: &[Offer], offer: &Offer) -> bool
    ensures { result ≡ list_any (λ bet. same_bet bet offer.now) bets.now }
{
    bets.iter().any(|bet| is_same_bet(bet, offer))
}

/// The first offer of each selection and rule, in the order of the offers.
///
/// Takes memory once, for as many offers as are handed in. Compares each offer with at most all that
/// were kept before it.
pub fn bets(alloc: Global, offers: &[Offer]) -> Result<Vec<Offer>, WantOfMemory>
    ensures { IfOk result (λ bets. bets.items ≡ distinct_by same_bet offers.now) }
{
    let mut bets = Vec::with_capacity(alloc, offers.len())?;
    for offer in offers {
        if !has_bet(&bets, offer) {
            bets.push(*offer)?;
        }
    }
    Ok(bets)
}
