// The version of a plan.
ghost use Rattle.std.specs.Prelude.{◌≡◌};
ghost use Rattle.{toml.specs.View.view, plan_text.specs.Version.{version, is_second}};

use toml::Value;
use toml_rules::number_or;

/// The version of the plan, 1 or 2.
#[tactic(auto, unfolding(crate::specs::Version::version))]
pub(crate) fn version(document: &Value) -> Option<u64>
    ensures { result ≡ version (view document.now) }
{
    number_or(document, "version", 1, 1, 2)
}

/// Whether the plan is one of version 2.
#[tactic(auto, unfolding(crate::specs::Version::is_second))]
pub(crate) fn is_second(document: &Value) -> bool
    ensures { result ≡ is_second (view document.now) }
{
    match version(document) {
        Some(version) => version == 2,
        None => false,
    }
}
