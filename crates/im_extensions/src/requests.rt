//! Requests that ask by a bare element.
ghost use Rattle.std.specs.Prelude.{◌≡◌, Err, IfOk, Ok, codes, if◌then◌else◌};
ghost use Rattle.im_payload.specs.Bare.{bare};
ghost use Rattle.im_payload.specs.Names.{disco_info, pings, roster, sessions};
ghost use Rattle.im_extensions.specs.Requests.{carbons_switch_elem, switch_read};
ghost use Rattle.xml_trees.specs.Readers.{is_named};
ghost use Rattle.xml_trees.specs.Views.{elem_view};

use base_io::NoMemory;
use im_payload::{CARBONS, DISCO_INFO, ExtFault, PINGS, ROSTER, SESSIONS, bare_tree};
use std::alloc::Global;
use xml_trees::{Element, Tree};

/// A client's wish to get copies of the messages of its account's other sessions from now on, or no longer (XEP-0280,
/// sections 4 and 5).
#[derive(Clone, Copy, Debug, PartialEq, Eq)]
pub struct CarbonsSwitch {
    pub on: bool,
}

impl CarbonsSwitch {
    /// Reads an `enable` or a `disable` of carbons' namespace, whatever it has and contains. `NotThis` where the tree is
    /// another element.
    pub fn read(tree: &Tree) -> Result<CarbonsSwitch, ExtFault>
        ensures { result ≡ switch_read tree.now }
    {
        CarbonsSwitch::read_element(tree.element())
    }

    /// The same of an element.
    pub fn read_element(element: &Element) -> Result<CarbonsSwitch, ExtFault>
        ensures { result ≡ switch_read (elem_view element.now) }
    {
        if element.is(CARBONS, "enable") {
            Ok(CarbonsSwitch { on: true })
        } else if element.is(CARBONS, "disable") {
            Ok(CarbonsSwitch { on: false })
        } else {
            Err(ExtFault::NotThis)
        }
    }

    /// The element as a tree.
    pub fn tree(&self, alloc: Global) -> Result<Tree, NoMemory>
        ensures { IfOk result (λ tree. tree ≡ carbons_switch_elem self.now) }
    {
        let name = if self.on { "enable" } else { "disable" };
        bare_tree(alloc, CARBONS, name)
    }
}

/// A question whether the other side is there (XEP-0199, section 4).
#[derive(Clone, Copy, Debug, PartialEq, Eq)]
pub struct Ping;

impl Ping {
    /// Reads a `ping` of pings' namespace, whatever it has and contains. `NotThis` where the tree is another
    /// element.
    pub fn read(tree: &Tree) -> Result<Ping, ExtFault>
        ensures { result ≡ (if is_named pings (codes "ping") tree.now then Ok (record {}) else Err ExtFault.NotThis) }
    {
        Ping::read_element(tree.element())
    }

    /// The same of an element.
    pub fn read_element(element: &Element) -> Result<Ping, ExtFault>
        ensures { result ≡ (if is_named pings (codes "ping") (elem_view element.now) then Ok (record {}) else Err ExtFault.NotThis) }
    {
        if element.is(PINGS, "ping") {
            Ok(Ping)
        } else {
            Err(ExtFault::NotThis)
        }
    }

    /// The element as a tree.
    pub fn tree(&self, alloc: Global) -> Result<Tree, NoMemory>
        ensures { IfOk result (λ tree. tree ≡ bare pings (codes "ping")) }
    {
        bare_tree(alloc, PINGS, "ping")
    }
}

/// A question for what an entity is and can do (XEP-0030, section 3.1).
#[derive(Clone, Copy, Debug, PartialEq, Eq)]
pub struct DiscoInfo;

impl DiscoInfo {
    /// Reads a `query` of service discovery's namespace, whatever it has and contains. `NotThis` where the tree is another
    /// element.
    pub fn read(tree: &Tree) -> Result<DiscoInfo, ExtFault>
        ensures { result ≡ (if is_named disco_info (codes "query") tree.now then Ok (record {}) else Err ExtFault.NotThis) }
    {
        DiscoInfo::read_element(tree.element())
    }

    /// The same of an element.
    pub fn read_element(element: &Element) -> Result<DiscoInfo, ExtFault>
        ensures { result ≡ (if is_named disco_info (codes "query") (elem_view element.now) then Ok (record {}) else Err ExtFault.NotThis) }
    {
        if element.is(DISCO_INFO, "query") {
            Ok(DiscoInfo)
        } else {
            Err(ExtFault::NotThis)
        }
    }

    /// The element as a tree.
    pub fn tree(&self, alloc: Global) -> Result<Tree, NoMemory>
        ensures { IfOk result (λ tree. tree ≡ bare disco_info (codes "query")) }
    {
        bare_tree(alloc, DISCO_INFO, "query")
    }
}

/// A client's request for its roster (RFC 6121, section 2.1.3).
#[derive(Clone, Copy, Debug, PartialEq, Eq)]
pub struct RosterGet;

impl RosterGet {
    /// Reads a `query` of the roster's namespace, whatever it has and contains. `NotThis` where the tree is another
    /// element.
    pub fn read(tree: &Tree) -> Result<RosterGet, ExtFault>
        ensures { result ≡ (if is_named roster (codes "query") tree.now then Ok (record {}) else Err ExtFault.NotThis) }
    {
        RosterGet::read_element(tree.element())
    }

    /// The same of an element.
    pub fn read_element(element: &Element) -> Result<RosterGet, ExtFault>
        ensures { result ≡ (if is_named roster (codes "query") (elem_view element.now) then Ok (record {}) else Err ExtFault.NotThis) }
    {
        if element.is(ROSTER, "query") {
            Ok(RosterGet)
        } else {
            Err(ExtFault::NotThis)
        }
    }

    /// The element as a tree.
    pub fn tree(&self, alloc: Global) -> Result<Tree, NoMemory>
        ensures { IfOk result (λ tree. tree ≡ bare roster (codes "query")) }
    {
        bare_tree(alloc, ROSTER, "query")
    }
}

/// A client's wish for a session, which asks for nothing any more (RFC 3921, section 3).
#[derive(Clone, Copy, Debug, PartialEq, Eq)]
pub struct SessionSet;

impl SessionSet {
    /// Reads a `session` of sessions' namespace, whatever it has and contains. `NotThis` where the tree is another
    /// element.
    pub fn read(tree: &Tree) -> Result<SessionSet, ExtFault>
        ensures { result ≡ (if is_named sessions (codes "session") tree.now then Ok (record {}) else Err ExtFault.NotThis) }
    {
        SessionSet::read_element(tree.element())
    }

    /// The same of an element.
    pub fn read_element(element: &Element) -> Result<SessionSet, ExtFault>
        ensures { result ≡ (if is_named sessions (codes "session") (elem_view element.now) then Ok (record {}) else Err ExtFault.NotThis) }
    {
        if element.is(SESSIONS, "session") {
            Ok(SessionSet)
        } else {
            Err(ExtFault::NotThis)
        }
    }

    /// The element as a tree.
    pub fn tree(&self, alloc: Global) -> Result<Tree, NoMemory>
        ensures { IfOk result (λ tree. tree ≡ bare sessions (codes "session")) }
    {
        bare_tree(alloc, SESSIONS, "session")
    }
}
