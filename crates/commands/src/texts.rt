// Where a text is split.
ghost use Rattle.std.specs.Prelude.{◌≡◌, ◌==◌, ◌≤◌, length, position};
ghost use Rattle.commands.specs.Texts.{index_of};

// The first place that has the byte.
fn first(text: &[u8], mark: u8) -> Option<usize>
    ensures { result ≡ position (λ c. c == mark) text.now }
{
    text.iter().position(|c| *c == mark)
}

// Where a byte stands first in a text; the end where it does not, and no Option: `index_of` says the end, and `fit_row` takes the text before it.
#[tactic(auto, using(crate::proofs::TextLaws::index_found, crate::proofs::TextLaws::index_inside))]
pub(crate) fn find(text: &[u8], mark: u8) -> usize
    ensures value { result ≡ index_of mark text.now }
    ensures inside { result ≤ length text.now }
{
    first(text, mark).unwrap_or(text.len())
}
