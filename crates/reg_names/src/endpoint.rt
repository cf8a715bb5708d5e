//! What a token may be used for (RFC 2947, "Endpoint scopes").

/// An endpoint scope.
#[derive(Clone, Copy, Debug, PartialEq, Eq)]
pub enum Endpoint {
    /// `publish-new`
    PublishNew,
    /// `publish-update`
    PublishUpdate,
    /// `yank`, which unyank needs too
    Yank,
    /// `change-owners`
    ChangeOwners,
}

/// A set of endpoint scopes.
#[derive(Clone, Copy, Debug, PartialEq, Eq)]
pub struct Endpoints {
    pub publish_new: bool,
    pub publish_update: bool,
    pub yank: bool,
    pub change_owners: bool,
}
