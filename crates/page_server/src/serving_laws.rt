//! Laws about what the bytes of a connection ask for, each as the contract of a function that does nothing.
ghost use Rattle.page_server.specs.ServingLaws.{AskedOnce, AskedStays, AskedByAll, WaitsShortly, BadExactly};

/// The bytes of a connection ask for one thing, which stands once it is decided.
pub fn one_asked()
    ensures once { AskedOnce }
    ensures stays { AskedStays }
    ensures all { AskedByAll }
{}

/// While a head is waited for there are few bytes, and their end makes a bad request; what a bad request is.
pub fn bad_requests()
    ensures waits { WaitsShortly }
    ensures bad { BadExactly }
{}
