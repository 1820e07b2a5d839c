//! Gifts beside tables of prices.
ghost use Rattle.std.specs.Prelude.{◌≡◌};
ghost use Rattle.fp_prices_gifts.specs.GiftKinds.{gifts_beside};

use crate::gifts::Gift;
use fp_prices::Kind;
use std::marker::Model;

/// The gifts beside one table of prices. Contracts see their list.
#[derive(Drop)]
pub struct TableGifts {
    pub gifts: Vec<Gift>,
}

impl Model for TableGifts {
    ghost use Rattle.std.specs.Prelude.{List};
    ghost use Rattle.fp_prices_gifts.specs.declared.gifts.Gift.{Gift};

    ghost Value = { List Gift };

    ghost view = { λ t. t.gifts.items };
}

/// The gifts beside the table that a kind of prices names: of the lists, which are for the tables 1,
/// 2 and so on, the one for that table. None beside linear and even prices, and where there is no
/// list for the table.
pub fn gifts_beside(gifts: &[TableGifts], kind: Kind) -> &[Gift]
    ensures { result.now ≡ gifts_beside gifts.now kind }
{
    match kind {
        Kind::Linear | Kind::Even => &[],
        Kind::Table { id } => match gifts.get((id as usize).saturating_sub(1)) {
            Some(beside) => &beside.gifts,
            None => &[],
        },
    }
}
