// The tree as one value, with the calls that change it.
ghost use Rattle.std.specs.Prelude.{◌≡◌, ◌≤◌, Ok, IfOk, OnErr, length, true};
ghost use Rattle.std.specs.List.{list_all};
ghost use Rattle.ct_base.specs.Path.{is_name, texts};
ghost use Rattle.ct_tree.specs.Tree.{File, Dir, none};
ghost use Rattle.ct_moves.specs.Does.{Does};
ghost use Rattle.ct_plain.specs.Makes.{Makes};
ghost use Rattle.ct_node.specs.Listed.{listed};
ghost use Rattle.ct_tree.specs.Ordered.{IsTree};
ghost use Rattle.ct_tree.specs.Resolve.{put, cut, IsBelowRoot};
ghost use Rattle.ct_tree.specs.Step.{file_limit, told, count, step, op_of, create, mkdir, write, fill, append, read, truncate, unlink, rmdir, rename, exchange, stat, list, locate};

use ct_base::{NO_PARTITION, NoMemory};
use ct_moves::{TwoRanges, exchange, rename, set_file};
use ct_node::{Entry, Kind, Node, check_empty, check_vacant, names_in};
use ct_tree::checks::{FILE_BYTES, READ_BYTES, check_end, check_limit, check_not_root};
use ct_tree::content::{copy_bytes, filled, range, resized, written};
use ct_tree::path::{last_name, names_of, parent};
use ct_tree::{Bytes, Call, NameList, Refusal, Reply, Stop};
use std::alloc::Global;
use std::marker::Model;

/// A file tree, kept as it is told.
#[derive(Drop)]
pub struct PlainTree {
    alloc: Global,
    root: Node,
}

impl Model for PlainTree {
    ghost use Rattle.ct_tree.specs.Tree.{Tree};
    ghost use Rattle.ct_node.specs.TreeCode.{coded_tree};

    ghost Value = { Tree };

    ghost coded = { coded_tree };

    ghost view = { λ p. p.root };

    ghost use Rattle.ct_tree.specs.Resolve.{IsDir};
    ghost use Rattle.ct_tree.specs.Ordered.{IsTree};

    ghost invariant = { λ p. IsTree p.root × IsDir p.root };
}

impl PlainTree {
    /// The tree with an empty root.
    pub fn new(alloc: Global) -> Result<PlainTree, NoMemory>
        ensures { IfOk result (λ t. t ≡ Dir none) }
    {
        Ok(PlainTree {
            alloc,
            root: Node::empty_dir(alloc),
        })
    }

    /// The reply and the tree of the table of calls; to `Where` on a file, base 0 and level 15. After `NoMemory` the tree is as
    /// before.
    pub fn call(&mut self, call: &Call<'_>) -> Result<Reply, NoMemory>
        ensures step { IfOk result (λ reply. (reply, self.new) ≡ step self.old (op_of call.now)) }
        ensures err { OnErr result (self.new ≡ self.old) }
    {
        match self.apply(call) {
            Ok(reply) => Ok(reply),
            Err(Stop::Refused(refusal)) => Ok(Reply::Refused(refusal)),
            Err(Stop::NoMemory) => Err(NoMemory),
        }
    }

    fn apply(&mut self, call: &Call<'_>) -> Result<Reply, Stop>
        ensures { Does self.old (op_of call.now) result self.new }
    {
        match *call {
            Call::Create { path } => self.create(path),
            Call::Mkdir { path } => self.mkdir(path),
            Call::Write { path, off, bytes } => self.write(path, off, bytes),
            Call::Fill {
                path,
                off,
                len,
                byte,
            } => self.fill(path, off, len, byte),
            Call::Append { path, bytes } => self.append(path, bytes),
            Call::Read { path, off, len } => self.read(path, off, len),
            Call::Truncate { path, len } => self.truncate(path, len),
            Call::Unlink { path } => self.unlink(path),
            Call::Rmdir { path } => self.rmdir(path),
            Call::Rename { path, to } => self.rename(path, to),
            Call::Exchange {
                path,
                off,
                other,
                other_off,
                len,
            } => self.exchange(&TwoRanges {
                path,
                off,
                other,
                other_off,
                len,
            }),
            Call::Stat { path } => self.stat(path),
            Call::List { path } => self.list(path),
            Call::Where { path } => self.locate(path),
        }
    }

    fn create(&mut self, path: &[u8]) -> Result<Reply, Stop>
        ensures { Does self.old (create path.now) result self.new }
    {
        let node = Node::file(Vec::new(self.alloc));
        self.make(path, node)
    }

    fn mkdir(&mut self, path: &[u8]) -> Result<Reply, Stop>
        ensures { Does self.old (mkdir path.now) result self.new }
    {
        let node = Node::empty_dir(self.alloc);
        self.make(path, node)
    }

    /// Puts a new node at a path.
    fn make(&mut self, path: &[u8], node: Node) -> Result<Reply, Stop>
        requires { IsTree node }
        ensures { Makes self.old path.now node result self.new }
    {
        let names = names_of(self.alloc, path)?;
        check_not_root(&names, Refusal::Exists)?;
        let entries = self.root.dir_at(parent(&names))?;
        check_vacant(entries, last_name(&names))?;
        self.root.insert(self.alloc, &names, node)?;
        Ok(Reply::Done)
    }

    fn write(&mut self, path: &[u8], off: u64, bytes: &[u8]) -> Result<Reply, Stop>
        ensures { Does self.old (write path.now off bytes.now) result self.new }
    {
        let names = names_of(self.alloc, path)?;
        let old = self.root.file_at(&names)?;
        check_end(off, bytes.len() as u64)?;
        let data = written(self.alloc, old, off, bytes)?;
        self.set_file(&names, data);
        Ok(Reply::Done)
    }

    fn fill(&mut self, path: &[u8], off: u64, len: u64, byte: u8) -> Result<Reply, Stop>
        ensures { Does self.old (fill path.now off len byte) result self.new }
    {
        let names = names_of(self.alloc, path)?;
        let old = self.root.file_at(&names)?;
        check_end(off, len)?;
        let bytes = filled(self.alloc, len, byte)?;
        let data = written(self.alloc, old, off, &bytes)?;
        self.set_file(&names, data);
        Ok(Reply::Done)
    }

    /// A write at the end.
    fn append(&mut self, path: &[u8], bytes: &[u8]) -> Result<Reply, Stop>
        ensures { Does self.old (append path.now bytes.now) result self.new }
    {
        let names = names_of(self.alloc, path)?;
        let old = self.root.file_at(&names)?;
        let end = old.len() as u64;
        self.write(path, end, bytes)
    }

    fn truncate(&mut self, path: &[u8], len: u64) -> Result<Reply, Stop>
        ensures { Does self.old (truncate path.now len) result self.new }
    {
        let names = names_of(self.alloc, path)?;
        let old = self.root.file_at(&names)?;
        check_limit(len, FILE_BYTES, Refusal::TooBig)?;
        let data = resized(self.alloc, old, len)?;
        self.set_file(&names, data);
        Ok(Reply::Done)
    }

    /// Puts a file in the place of what the names lead to.
    fn set_file(&mut self, names: &[&[u8]], bytes: Vec<u8>)
        requires there { IsBelowRoot self.old (texts names.now) }
        requires names { list_all is_name (texts names.now) ≡ true }
        requires short { length bytes.items ≤ file_limit }
        ensures { self.new ≡ put self.old (texts names.now) (File bytes.items) }
    {
        set_file(&mut self.root, names, bytes);
    }

    fn read(&self, path: &[u8], off: u64, len: u64) -> Result<Reply, Stop>
        ensures { Does self.now (read path.now off len) result self.now }
    {
        let names = names_of(self.alloc, path)?;
        let bytes = self.root.file_at(&names)?;
        check_limit(len, READ_BYTES, Refusal::TooLong)?;
        let data = copy_bytes(self.alloc, range(bytes, off, len))?;
        Ok(Reply::Data(Bytes::new(data)))
    }

    fn unlink(&mut self, path: &[u8]) -> Result<Reply, Stop>
        ensures { Does self.old (unlink path.now) result self.new }
    {
        let names = names_of(self.alloc, path)?;
        self.root.file_at(&names)?;
        self.remove(&names);
        Ok(Reply::Done)
    }

    fn rmdir(&mut self, path: &[u8]) -> Result<Reply, Stop>
        ensures { Does self.old (rmdir path.now) result self.new }
    {
        let names = names_of(self.alloc, path)?;
        check_not_root(&names, Refusal::IsRoot)?;
        let entries = self.root.dir_at(&names)?;
        check_empty(entries)?;
        self.remove(&names);
        Ok(Reply::Done)
    }

    /// Takes out what the names lead to.
    fn remove(&mut self, names: &[&[u8]])
        requires there { IsBelowRoot self.old (texts names.now) }
        requires names { list_all is_name (texts names.now) ≡ true }
        ensures { self.new ≡ cut self.old (texts names.now) }
    {
        self.root.remove(names);
    }

    fn rename(&mut self, path: &[u8], to: &[u8]) -> Result<Reply, Stop>
        ensures { Does self.old (rename path.now to.now) result self.new }
    {
        let names = names_of(self.alloc, path)?;
        let target = names_of(self.alloc, to)?;
        rename(self.alloc, &mut self.root, path, &names, to, &target)
    }

    fn exchange(&mut self, asked: &TwoRanges<'_>) -> Result<Reply, Stop>
        ensures { Does self.old (exchange asked.now.path.now asked.now.off asked.now.other.now asked.now.other_off asked.now.len) result self.new }
    {
        let names = names_of(self.alloc, asked.path)?;
        let others = names_of(self.alloc, asked.other)?;
        exchange(self.alloc, &mut self.root, asked, &names, &others)
    }

    fn stat(&self, path: &[u8]) -> Result<Reply, Stop>
        ensures { Does self.now (stat path.now) result self.now }
    {
        let names = names_of(self.alloc, path)?;
        let node = self.root.find(&names)?;
        Ok(told(node))
    }

    fn list(&self, path: &[u8]) -> Result<Reply, Stop>
        ensures { Does self.now (list path.now) result self.now }
    {
        let names = names_of(self.alloc, path)?;
        let entries = self.root.dir_at(&names)?;
        let listed = names_in(self.alloc, entries)?;
        Ok(Reply::Names(NameList::new(listed)))
    }

    fn locate(&self, path: &[u8]) -> Result<Reply, Stop>
        ensures { Does self.now (locate path.now) result self.now }
    {
        let names = names_of(self.alloc, path)?;
        self.root.file_at(&names)?;
        Ok(Reply::At {
            base: 0,
            level: NO_PARTITION as u32,
        })
    }
}

/// What is told of a node.
fn told(node: &Node) -> Reply
    ensures { result ≡ told (Ok node.now) }
{
    match &node.kind {
        Kind::File(bytes) => Reply::File(bytes.len() as u64),
        Kind::Dir(entries) => Reply::Dir(count(entries)),
    }
}

#[tactic(auto, using(ct_node::proofs::Walks::count_rows))]
fn count(entries: &[Entry]) -> u64
    ensures { result ≡ count (listed entries.now) }
{
    entries.len() as u64
}
