// A shown board by itself: the values that a cell can show, and the refusals 20, 21 and 261 of a board that is lent alone.
// The contracts cite rules/specs/Picture.antt.
#![tactic(auto)]

ghost use Rattle.std.specs.Prelude.{◌≡◌};
ghost use Rattle.rules.specs.Picture.{is_shown, all_shown, shown_refusal};
ghost use Rattle.rules.specs.Refusals.{found_number};

use rules::Refusal;

#[tactic(auto, unfolding(rules::specs::Picture::is_shown))]
pub fn is_shown(v: u8) -> bool
    ensures { result ≡ is_shown v }
{
    v <= 8 || [10, 11, 14, 15, 17].contains(&v)
}

fn all_shown(shown: &[u8]) -> bool
    ensures { result ≡ all_shown shown.now }
{
    shown.iter().all(|v| is_shown(*v))
}

// Size, length or a value that is never shown, where `fit` says that whatever else is lent has its length.
pub fn shown_refusal(rows: u8, columns: u8, shown: &[u8], fit: bool) -> Result<(), Refusal>
    ensures { found_number result ≡ shown_refusal rows columns shown.now fit }
{
    if !cells::size_ok(rows, columns) {
        return Err(Refusal::Size);
    }
    let fits = (shown.len() == boards::cell_count(rows, columns)) & fit;
    if !fits {
        return Err(Refusal::Length);
    }
    if !all_shown(shown) {
        return Err(Refusal::Shown);
    }
    Ok(())
}
