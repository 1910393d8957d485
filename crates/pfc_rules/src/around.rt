//! What the tree around a body says of it.
ghost use Rattle.std.specs.Prelude.{◌≡◌};
ghost use Rattle.pfc_tree.specs.views.Parts.{kind_view};
ghost use Rattle.pfc_types.specs.rules.Bodies as rules;

use pfc_tree::SubKind;
use pfc_types::Around;

/// In no body.
pub const NOWHERE: Around = Around {
    main: false,
    cobegin: false,
    process: false,
    sub: false,
    guarded: false,
    guard: None,
};

/// In the main body.
pub const MAIN: Around = Around {
    main: true,
    ..NOWHERE
};

/// In the body of a process, outside its subs.
pub const PROCESS: Around = Around {
    process: true,
    ..NOWHERE
};

/// In the body of a sub, which stands in a process or not.
pub fn around_sub(process: bool, kind: &SubKind) -> Around
    ensures { result ≡ rules.around_sub process (kind_view kind.now) }
{
    let guarded = match kind {
        SubKind::Procedure | SubKind::Function(_, _) => false,
        SubKind::Guarded(_, _) => true,
    };
    Around {
        process,
        sub: true,
        guarded,
        ..NOWHERE
    }
}

/// In the guard of a procedure of the resource with this scope.
pub fn around_guard(scope: u32) -> Around
    ensures { result ≡ rules.around_guard scope }
{
    Around {
        guard: Some(scope),
        ..NOWHERE
    }
}
