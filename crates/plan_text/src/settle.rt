// How many events may overtake one that is put in its place.
ghost use Rattle.std.specs.Prelude.{◌≡◌, ◌≤◌, IfSome};
ghost use Rattle.{toml.specs.View.view, plan_text.specs.Settle.{settle, settle_or_none}};

use toml::Value;
use toml_rules::number_or;

/// The number that the document says, or none.
#[tactic(auto, unfolding(crate::specs::Settle::settle))]
pub(crate) fn settle(document: &Value) -> Option<u64>
    ensures number { result ≡ settle (view document.now) }
    ensures range { IfSome result (λ n. n ≤ 64) }
{
    number_or(document, "settle", 0, 0, 64)
}

/// The number of a plan.
#[tactic(auto, unfolding(crate::specs::Settle::settle_or_none))]
pub(crate) fn settle_or_none(document: &Value) -> u64
    ensures number { result ≡ settle_or_none (view document.now) }
    ensures range { result ≤ 64 }
{
    settle(document).unwrap_or(0)
}
