//! What is in view in an accept.
ghost use Rattle.std.specs.Prelude.{◌≡◌};
ghost use Rattle.pfc_types.specs.Views.{levels};
ghost use Rattle.pfc_types.specs.rules.Statements.{within_accept};
ghost use Rattle.pfc_addresses.specs.Sites.{site_view};

use crate::positions::Position;
use pfc_addresses::Site;
use pfc_rules::passing::names_in;
use pfc_types::View;

/// The names in view in the statement of an accept, whose parameters are the next scope.
pub(crate) fn view_in<'e>(from: Position<'_, 'e>) -> View<'e>
    ensures { levels result ≡ (within_accept (site_view from.entry.site).env from.entry.next).view }
{
    let env = from.site.env();
    View {
        scope: from.next,
        count: names_in(env.scopes, from.next),
        outer: Some(env.view),
    }
}

/// The same place with these names in view.
#[tactic(auto, unfolding(pfc_addresses::specs::Sites::site_view))]
pub(crate) fn with_view<'t, 'a>(view: &'a View<'a>, from: Position<'t, 'a>) -> Position<'t, 'a>
    ensures site { site_view result.site ≡ record (site_view from.entry.site) { env = record (site_view from.entry.site).env { view = levels view.now } } }
    ensures next { result.next ≡ from.entry.next }
{
    Position {
        site: Site { view, ..from.site },
        ..from
    }
}
