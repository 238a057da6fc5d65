// A node of the tree.
ghost use Rattle.std.specs.Prelude.{◌≡◌, [], MatchResult, OnOk, OnErr, IsSome, IfOk, Some, Ok, Err, false, map};
ghost use Rattle.ct_base.specs.Path.{texts};
ghost use Rattle.ct_tree.specs.Tree.{File, Dir, none};
ghost use Rattle.ct_tree.specs.Checks.{Passes, no_node, no_file, no_dir, is_dir, exists_in, has_entries, unlike};
ghost use Rattle.ct_tree.specs.Step.{names_in};
ghost use Rattle.ct_tree.specs.Entries.{place_of, put_entry, lookup, cut_entry};
ghost use Rattle.ct_node.specs.Listed.{listed};
ghost use Rattle.ct_tree.specs.Ordered.{IsTree};
ghost use Rattle.ct_node.specs.Places.{AtPlace};
ghost use Rattle.ct_tree.specs.Resolve.{resolve, put, cut, lies_below, node_in, HasParent, IsBelowRoot};

use ct_base::NoMemory;
use ct_tree::Refusal;
use ct_tree::content::copy_bytes;
use std::alloc::Global;
use std::cmp::Ordering;
use std::marker::Model;

/// Contracts see the `Tree` of `specs/Tree.antt`.
#[cycle(node)]
#[derive(Drop)]
pub struct Node {
    pub kind: Kind,
}

#[cycle(node)]
#[derive(Drop)]
pub enum Kind {
    File(Vec<u8>),
    Dir(Vec<Entry>),
}

#[cycle(node)]
#[derive(Drop)]
pub struct Entry {
    pub name: Vec<u8>,
    pub node: Node,
}

impl Model for Node {
    ghost use Rattle.ct_tree.specs.Tree.{Tree, nodes};
    ghost use Rattle.ct_node.specs.TreeCode.{coded_tree};

    ghost Value = { Tree };

    ghost coded = { coded_tree };

    ghost use Rattle.ct_node.specs.Listed.{tree_of};

    ghost view = { λ a. tree_of a.kind };

    ghost size = { nodes };

    ghost use Rattle.ct_node.specs.TreeFalls.{depth_le-nodes};

    ghost size_decreases = { λ a h. depth_le-nodes a.kind };
}

impl Node {
    /// A file with these bytes.
    pub fn file(bytes: Vec<u8>) -> Node
        ensures { result ≡ File bytes.items }
    {
        Node {
            kind: Kind::File(bytes),
        }
    }

    /// An empty directory.
    pub fn empty_dir(alloc: Global) -> Node
        ensures { result ≡ Dir none }
    {
        Node {
            kind: Kind::Dir(Vec::new(alloc)),
        }
    }

    /// The node that the names lead to.
    pub fn find(&self, names: &[&[u8]]) -> Result<&Node, Refusal>
        ensures { MatchResult result
            (λ n. resolve self.now (texts names.now) ≡ Ok n.now)
            (λ e. resolve self.now (texts names.now) ≡ Err e) }
    {
        let mut here = self;
        for name in names {
            match &here.kind {
                Kind::File(_) => return Err(Refusal::NotDir),
                Kind::Dir(entries) => match place_of(entries, name) {
                    Ok(i) => here = &entries[i].node,
                    Err(_) => return Err(Refusal::NotFound),
                },
            }
        }
        Ok(here)
    }

    /// The bytes of a file.
    pub fn as_file(&self) -> Result<&[u8], Refusal>
        ensures { MatchResult result
            (λ bytes. self.now ≡ File bytes.now)
            (λ e. is_dir (Ok self.now) ≡ Some e) }
    {
        match &self.kind {
            Kind::File(bytes) => Ok(bytes.as_slice()),
            Kind::Dir(_) => Err(Refusal::IsDir),
        }
    }

    /// The entries of a directory.
    pub fn as_dir(&self) -> Result<&[Entry], Refusal>
        ensures { MatchResult result
            (λ entries. self.now ≡ Dir (listed entries.now))
            (λ e. no_dir (Ok self.now) ≡ Some e) }
    {
        match &self.kind {
            Kind::File(_) => Err(Refusal::NotDir),
            Kind::Dir(entries) => Ok(entries.as_slice()),
        }
    }

    /// The bytes of the file that the names lead to.
    pub fn file_at(&self, names: &[&[u8]]) -> Result<&[u8], Refusal>
        ensures { MatchResult result
            (λ bytes. resolve self.now (texts names.now) ≡ Ok (File bytes.now))
            (λ e. no_file (resolve self.now (texts names.now)) ≡ Some e) }
    {
        match self.find(names) {
            Ok(node) => node.as_file(),
            Err(refusal) => Err(refusal),
        }
    }

    /// The entries of the directory that the names lead to.
    pub fn dir_at(&self, names: &[&[u8]]) -> Result<&[Entry], Refusal>
        ensures { MatchResult result
            (λ entries. resolve self.now (texts names.now) ≡ Ok (Dir (listed entries.now)))
            (λ e. no_dir (resolve self.now (texts names.now)) ≡ Some e) }
    {
        match self.find(names) {
            Ok(node) => node.as_dir(),
            Err(refusal) => Err(refusal),
        }
    }

    /// The node may take the place of what the names lead to.
    pub fn check_like(&self, root: &Node, names: &[&[u8]]) -> Result<(), Refusal>
        ensures { Passes result (unlike (Ok self.now) (resolve root.now (texts names.now))) }
    {
        match root.find(names) {
            Ok(there) => self.check_replaces(there),
            Err(_) => Ok(()),
        }
    }

    fn check_replaces(&self, there: &Node) -> Result<(), Refusal>
        ensures { Passes result (unlike (Ok self.now) (Ok there.now)) }
    {
        match (&self.kind, &there.kind) {
            (Kind::File(_), Kind::Dir(_)) => Err(Refusal::IsDir),
            (Kind::Dir(_), Kind::File(_)) => Err(Refusal::NotDir),
            (Kind::Dir(_), Kind::Dir(entries)) => check_empty(entries),
            (Kind::File(_), Kind::File(_)) => Ok(()),
        }
    }

    /// Puts a node where the names lead. An `Err` changes nothing.
    #[cycle(insert)]
    pub fn insert(&mut self, alloc: Global, names: &[&[u8]], node: Node) -> Result<(), NoMemory>
        requires { HasParent self.old (texts names.now) }
        ensures ok { OnOk result (self.new ≡ put self.old (texts names.now) node) }
        ensures err { OnErr result (self.new ≡ self.old) }
    {
        match &mut self.kind {
            Kind::File(_) => unreachable!(),
            Kind::Dir(entries) => insert_below(alloc, entries, names, node),
        }
    }

    /// Puts a node in the place of the one that the names lead to. This takes no memory.
    #[cycle(replace)]
    pub fn replace(&mut self, names: &[&[u8]], node: Node)
        requires { IsBelowRoot self.old (texts names.now) }
        ensures { self.new ≡ put self.old (texts names.now) node }
    {
        match &mut self.kind {
            Kind::File(_) => unreachable!(),
            Kind::Dir(entries) => replace_below(entries, names, node),
        }
    }

    /// Takes out the node that the names lead to.
    #[cycle(remove)]
    pub fn remove(&mut self, names: &[&[u8]]) -> Node
        requires { IsBelowRoot self.old (texts names.now) }
        ensures taken { resolve self.old (texts names.now) ≡ Ok result }
        ensures left { self.new ≡ cut self.old (texts names.now) }
    {
        match &mut self.kind {
            Kind::File(_) => unreachable!(),
            Kind::Dir(entries) => remove_below(entries, names),
        }
    }

    /// The tree with the node at some names put where others lead.
    pub fn moved(&self, alloc: Global, names: &[&[u8]], to: &[&[u8]]) -> Result<Node, NoMemory>
        requires tree { IsTree self.now }
        requires there { IsBelowRoot self.now (texts names.now) }
        requires parent { HasParent self.now (texts to.now) }
        requires apart { lies_below (texts names.now) (texts to.now) ≡ false }
        ensures { IfOk result (λ n. n ≡ put (cut self.now (texts names.now)) (texts to.now) (node_in (resolve self.now (texts names.now)))) }
    {
        let mut root = self.copy(alloc)?;
        let node = root.remove(names);
        root.insert(alloc, to, node)?;
        Ok(root)
    }

    /// A copy that shares nothing.
    pub fn copy(&self, alloc: Global) -> Result<Node, NoMemory>
        ensures { IfOk result (λ n. n ≡ self.now) }
    {
        match &self.kind {
            Kind::File(bytes) => {
                let bytes = copy_bytes(alloc, bytes)?;
                Ok(Node {
                    kind: Kind::File(bytes),
                })
            }
            Kind::Dir(entries) => {
                let mut all = Vec::new(alloc);
                for entry in entries {
                    let name = copy_bytes(alloc, &entry.name)?;
                    let node = entry.node.copy(alloc)?;
                    match all.push(Entry { name, node }) {
                        Ok(()) => {}
                        Err(_) => return Err(NoMemory),
                    }
                }
                Ok(Node {
                    kind: Kind::Dir(all),
                })
            }
        }
    }
}

/// A directory has no entries.
pub fn check_empty(entries: &[Entry]) -> Result<(), Refusal>
    ensures { Passes result (has_entries (Ok (Dir (listed entries.now)))) }
{
    match entries {
        [] => Ok(()),
        [_, ..] => Err(Refusal::NotEmpty),
    }
}

/// A name is not yet among the entries of a directory.
pub fn check_vacant(entries: &[Entry], name: &[u8]) -> Result<(), Refusal>
    ensures { Passes result (exists_in (Ok (Dir (listed entries.now))) name.now) }
{
    match place_of(entries, name) {
        Ok(_) => Err(Refusal::Exists),
        Err(_) => Ok(()),
    }
}

/// The names of the entries.
pub fn names_in(alloc: Global, entries: &[Entry]) -> Result<Vec<Vec<u8>>, NoMemory>
    ensures { IfOk result (λ names. map (λ n. n.items) names.items ≡ names_in (listed entries.now)) }
{
    let mut names = Vec::new(alloc);
    for entry in entries {
        let name = copy_bytes(alloc, &entry.name)?;
        match names.push(name) {
            Ok(()) => {}
            Err(_) => return Err(NoMemory),
        }
    }
    Ok(names)
}

#[cycle(insert)]
fn insert_below(
    alloc: Global,
    entries: &mut Vec<Entry>,
    names: &[&[u8]],
    node: Node,
) -> Result<(), NoMemory>
    requires { HasParent (Dir (listed entries.old.items)) (texts names.now) }
    ensures ok { OnOk result (Dir (listed entries.new.items) ≡ put (Dir (listed entries.old.items)) (texts names.now) node) }
    ensures err { OnErr result (listed entries.new.items ≡ listed entries.old.items) }
{
    let (first, rest) = match names.split_first() {
        None => unreachable!(),
        Some((first, rest)) => (*first, rest),
    };
    if rest.is_empty() {
        return insert_entry(alloc, entries, first, node);
    }
    match place_of(entries, first) {
        Err(_) => unreachable!(),
        Ok(i) => entries[i].node.insert(alloc, rest, node),
    }
}

#[cycle(replace)]
fn replace_below(entries: &mut Vec<Entry>, names: &[&[u8]], node: Node)
    requires { IsBelowRoot (Dir (listed entries.old.items)) (texts names.now) }
    ensures { Dir (listed entries.new.items) ≡ put (Dir (listed entries.old.items)) (texts names.now) node }
{
    let (first, rest) = match names.split_first() {
        None => unreachable!(),
        Some((first, rest)) => (*first, rest),
    };
    match place_of(entries, first) {
        Err(_) => unreachable!(),
        Ok(i) => {
            if rest.is_empty() {
                entries[i].node = node;
            } else {
                entries[i].node.replace(rest, node);
            }
        }
    }
}

#[cycle(remove)]
fn remove_below(entries: &mut Vec<Entry>, names: &[&[u8]]) -> Node
    requires { IsBelowRoot (Dir (listed entries.old.items)) (texts names.now) }
    ensures taken { resolve (Dir (listed entries.old.items)) (texts names.now) ≡ Ok result }
    ensures left { Dir (listed entries.new.items) ≡ cut (Dir (listed entries.old.items)) (texts names.now) }
{
    let (first, rest) = match names.split_first() {
        None => unreachable!(),
        Some((first, rest)) => (*first, rest),
    };
    if rest.is_empty() {
        return remove_entry(entries, first);
    }
    match place_of(entries, first) {
        Err(_) => unreachable!(),
        Ok(i) => entries[i].node.remove(rest),
    }
}

/// Takes out the entry with the name.
fn remove_entry(entries: &mut Vec<Entry>, name: &[u8]) -> Node
    requires { IsSome (lookup name.now (listed entries.old.items)) }
    ensures taken { lookup name.now (listed entries.old.items) ≡ Some result }
    ensures left { listed entries.new.items ≡ cut_entry name.now (listed entries.old.items) }
{
    match place_of(entries, name) {
        Err(_) => unreachable!(),
        Ok(i) => {
            let Entry { name: _, node } = entries.remove(i);
            node
        }
    }
}

/// The number of the entry with the name, or the number that a new entry would have.
fn place_of(entries: &[Entry], name: &[u8]) -> Result<usize, usize>
    ensures { AtPlace name.now entries.now result }
{
    scan(entries, name)
}

/// The same, by a scan from the first entry.
fn scan(entries: &[Entry], name: &[u8]) -> Result<usize, usize>
    ensures { result ≡ place_of name.now (listed entries.now) }
{
    for (i, entry) in entries.iter().enumerate() {
        match name.cmp(entry.name.as_slice()) {
            Ordering::Less => return Err(i),
            Ordering::Equal => return Ok(i),
            Ordering::Greater => {}
        }
    }
    Err(entries.len())
}

/// Puts a node under a name. An `Err` changes nothing.
fn insert_entry(
    alloc: Global,
    entries: &mut Vec<Entry>,
    name: &[u8],
    node: Node,
) -> Result<(), NoMemory>
    ensures ok { OnOk result (listed entries.new.items ≡ put_entry name.now node (listed entries.old.items)) }
    ensures err { OnErr result (listed entries.new.items ≡ listed entries.old.items) }
{
    match place_of(entries, name) {
        Ok(i) => {
            entries[i].node = node;
            Ok(())
        }
        Err(i) => {
            let name = match Vec::from_slice(alloc, name) {
                Ok(name) => name,
                Err(_) => return Err(NoMemory),
            };
            match entries.insert(i, Entry { name, node }) {
                Ok(()) => Ok(()),
                Err(_) => Err(NoMemory),
            }
        }
    }
}
