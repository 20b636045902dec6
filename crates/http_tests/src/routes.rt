//! Which paths have which forms.
use crate::checks::same_text_of;
use http_request::Routes;
use std::alloc::Global;
use std::process::Abort;

// A path, and its form and its name, if it has a form.
static PATHS: [(&str, &str); 42] = [
    ("/databases", "Databases "),
    ("/databases/gem", "Database gem"),
    ("/databases/gem/rollback", "Rollback gem"),
    ("/databases/gem/place", "Place gem"),
    ("/virtual/all", "Virtual all"),
    ("/databases/place", "Database place"),
    ("/databases/rollback/rollback", "Rollback rollback"),
    ("/databases/place/rollback", "Rollback place"),
    ("/databases/a/place", "Place a"),
    ("/virtual/place", "Virtual place"),
    ("/databases/%41", "Database %41"),
    ("/databases/a?b=c", "Database a?b=c"),
    ("/databases/{name}", "Database {name}"),
    ("/databases/été", "Database été"),
    ("/databases/a%2Fplace", "Database a%2Fplace"),
    ("", "none"),
    ("/", "none"),
    ("//", "none"),
    ("*", "none"),
    ("databases", "none"),
    ("/database", "none"),
    ("/databases/", "none"),
    ("/databasess", "none"),
    ("/Databases", "none"),
    ("//databases", "none"),
    ("/databases//", "none"),
    ("/databases//place", "none"),
    ("/databases/a/", "none"),
    ("/databases/a/b", "none"),
    ("/databases/a/places", "none"),
    ("/databases/a/plac", "none"),
    ("/databases/a/place/", "none"),
    ("/databases/a/place/b", "none"),
    ("/databases/a/rollback/", "none"),
    ("/databases?a=b", "none"),
    ("/virtual", "none"),
    ("/virtual/", "none"),
    ("/virtual//", "none"),
    ("/virtual/a/b", "none"),
    ("/virtual/a/place", "none"),
    ("/virtual/a/", "none"),
    ("http://localhost/databases", "none"),
];

fn told(rt: &impl Abort, alloc: Global, routes: &Routes, path: &str) -> String {
    match routes.find(path) {
        Some(found) => {
            let (route, name) = (found.route, found.name);
            format!(in alloc; "{route:?} {name}").expect(rt, "memory")
        }
        None => String::from_str(alloc, "none").expect(rt, "memory"),
    }
}

fn find_all(rt: &impl Abort, alloc: Global, routes: &Routes) {
    for (path, form) in &PATHS {
        same_text_of(rt, told(rt, alloc, routes, path).as_str(), *form, path);
    }
}

#[test]
fn paths(rt: HostRuntime) {
    let routes = Routes::new(rt.alloc()).expect(&rt, "routes");
    find_all(&rt, rt.alloc(), &routes);
}
