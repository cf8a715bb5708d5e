//! Laws of the rows that the access queries return, when they stand for a registry. Each is the
//! contract of a function that does nothing.

ghost use Rattle.reg_access.specs.Laws.{CratesTell, JoinsDecide, OfAll, ReleasesTell, ReservedTells, ScopesCover, TokensTell, VersionsTell};

/// The row of a digest is that of its token and the token's account.
pub fn token_law()
    ensures { OfAll TokensTell }
{}

/// A scope of a token comes back exactly when one of its patterns covers the name.
pub fn scope_law()
    ensures { OfAll ScopesCover }
{}

/// The row of a crate shows its first spelling, and what an account is to it.
pub fn crate_law()
    ensures { OfAll CratesTell }
{}

/// A version comes back exactly when the crate has it.
pub fn version_law()
    ensures texts { OfAll VersionsTell }
    ensures releases { OfAll ReleasesTell }
{}

/// A text comes back exactly when the administrator reserved it.
pub fn reserved_law()
    ensures { OfAll ReservedTells }
{}

/// The verdict of the rows is the written policy's.
pub fn join_law()
    ensures { OfAll JoinsDecide }
{}
