// What a path asks for.

/// A form of paths.
#[derive(Clone, Copy, Debug, PartialEq, Eq)]
pub enum Route {
    /// `/databases`
    Databases,
    /// `/databases/NAME`
    Database,
    /// `/databases/NAME/rollback`
    Rollback,
    /// `/databases/NAME/place`
    Place,
    /// `/virtual/NAME`
    Virtual,
}

/// The form of a path, and the name in it.
#[derive(Clone, Copy, Debug)]
pub struct FoundRoute<'p> {
    pub route: Route,
    /// One octet or more, none of them a slash. It is empty where the form has no name.
    pub name: &'p str,
}
