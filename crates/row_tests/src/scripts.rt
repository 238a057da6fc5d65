// Scripts over a tree that begins as an empty root: their lines, and the lines that answer them.
use ct_base::{MemSink, NAME_BYTES, WriteFault};
use ct_plain::PlainTree;
use ct_script::{Quote, Scratch, Shown, parse, put_end, put_name, put_names, put_reply};
use ct_tree::{NameList, Reply};
use std::alloc::Global;
use std::process::Abort;
use std::test::Fail;

/// Scripts of the calls that make entries and look.
pub const ENTRIES: [(&str, &str); 8] = [
    ("create /a\ncreate /a", "ok\nerror exists\n"),
    (
        "create /x/y\ncreate /a\ncreate /a/b",
        "error not found\nok\nerror not a directory\n",
    ),
    (
        "mkdir /d\ncreate /d/b\ncreate /d/aa\nlist /d\nstat /d\nstat /\nwhere /d/b\nwhere /\nlist /d/b",
        "ok\nok\nok\nnames aa b\ndir 2\ndir 1\nat 0 15\nerror is a directory\nerror not a directory\n",
    ),
    (
        "create /a\nwhere /a\nread /a 0 0\nlist /\nmkdir /d\nlist /d",
        "ok\nat 0 15\ndata\nnames a\nok\nnames\n",
    ),
    (
        "create /a\nread // 0 1048577\nread /b 0 1048577\nread / 0 1048577\nread /a 0 1048577\nread /a 18446744073709551615 1048576",
        "ok\nerror bad path\nerror not found\nerror is a directory\nerror too long\ndata\n",
    ),
    (
        "create a\ncreate //\ncreate /a//b\ncreate /a/\nmkdir /.\nstat /a/../b\nlist /a%00\nstat /",
        "error bad path\nerror bad path\nerror bad path\nerror bad path\nerror bad path\nerror bad path\nerror bad path\ndir 0\n",
    ),
    (
        "create /~%25%20%01%7F%80%ff\r\ncreate %2Fold%20notes\ncreate /%zz%2\nlist /",
        "ok\nok\nok\nnames %25zz%252 old%20notes ~%25%20%01%7F%80%FF\n",
    ),
    (
        "Create /a\ncreate  /a\nfill /a 007 1 1\ntruncate /a 18446744073709551616\ncreate /a/",
        "error line\nerror line\nerror line\nerror line\nerror bad path\n",
    ),
];

/// Scripts of the calls that change the bytes of files, and that remove what is empty.
pub const BYTES: [(&str, &str); 5] = [
    (
        "create /a\nfill /a 0 10 65\ntruncate /a 5\nwrite /a 7 6869\nappend /a 21\nstat /a\nread /a 3 100\nread /a 0 0",
        "ok\nok\nok\nok\nok\nfile 10\ndata 41410000686921\ndata\n",
    ),
    (
        "create /a\nwrite /a 4096 41\nread /a 4095 2\nstat /a",
        "ok\nok\ndata 0041\nfile 4097\n",
    ),
    (
        "create /a\nfill /a 0 10 65\ntruncate /a 5\ntruncate /a 4096\nread /a 3 4",
        "ok\nok\nok\nok\ndata 41410000\n",
    ),
    (
        "create /a\ncreate /b\nfill /a 0 8192 65\nfill /b 0 12288 66\nexchange /a 0 /b 4096 8192\nread /a 0 2\nread /b 4095 2\nexchange /a 100 /b 0 4096\nexchange /b 0 /b 4096 8192",
        "ok\nok\nok\nok\nok\ndata 4242\ndata 4241\nerror bad range\nerror overlap\n",
    ),
    (
        "mkdir /d\ncreate /d/b\nwrite /d/b 0 41\nrmdir /d\nunlink /d\nrmdir /d/b\nunlink /d/b\nunlink /d/b\nrmdir /d\nrmdir /\nunlink /\nlist /",
        "ok\nok\nok\nerror not empty\nerror is a directory\nerror not a directory\nok\nerror not found\nok\nerror is the root\nerror is a directory\nnames\n",
    ),
];

/// Scripts that look again after each kind of call by which what a mount has learnt is no longer so.
pub const AGAIN: [(&str, &str); 5] = [
    (
        "create /a\nwrite /a 0 4142\nread /a 0 9\nunlink /a\nstat /a\ncreate /a\nstat /a\nread /a 0 9\nwrite /a 0 43\nread /a 0 9",
        "ok\nok\ndata 4142\nok\nerror not found\nok\nfile 0\ndata\nok\ndata 43\n",
    ),
    (
        "mkdir /d\ncreate /d/b\nwrite /d/b 0 41\nread /d/b 0 9\nunlink /d/b\nrmdir /d\ncreate /e\nwrite /e 0 42\nread /d/b 0 9\nstat /d\nread /e 0 9",
        "ok\nok\nok\ndata 41\nok\nok\nok\nok\nerror not found\nerror not found\ndata 42\n",
    ),
    (
        "create /a\nwrite /a 0 41\ncreate /b\nwrite /b 0 42\nrename /a /b\nread /b 0 9\nread /a 0 9\nrename /b /a\nread /a 0 9\nstat /b",
        "ok\nok\nok\nok\nok\ndata 41\nerror not found\nok\ndata 41\nerror not found\n",
    ),
    (
        "create /a\nwrite /a 0 41\nread /a 0 9\nwrite /a 8192 42\nread /a 0 1\nread /a 8191 9\nfill /a 0 2097152 67\nread /a 8192 1\nstat /a",
        "ok\nok\ndata 41\nok\ndata 41\ndata 0042\nok\ndata 43\nfile 2097152\n",
    ),
    (
        "create /a\ncreate /b\nfill /a 0 4096 65\nfill /b 0 4096 66\nread /a 0 1\nread /b 0 1\nexchange /a 0 /b 0 4096\nread /a 0 1\nread /b 0 1\ntruncate /a 0\nread /a 0 1\nread /b 4095 9",
        "ok\nok\nok\nok\ndata 41\ndata 42\nok\ndata 42\ndata 41\nok\ndata\ndata 41\n",
    ),
];

/// Scripts that tell where a file lies, or how many pages there are: a plain tree has no answer to these.
pub const PLACES: [(&str, &str); 9] = [
    (
        "create /a\nwrite /a 0 6869\nread /a 0 10\nwhere /a",
        "ok\nok\ndata 6869\nat 5497558142976 0\n",
    ),
    (
        "create /a\nfill /a 0 2097152 65\nwhere /a",
        "ok\nok\nat 5497560236032 3\n",
    ),
    (
        "create /a\nfill /a 4096 2097152 65\nread /a 4095 2\nread /a 2101247 2",
        "ok\nok\ndata 0041\ndata 41\n",
    ),
    (
        "create /a\nwrite /a 549755813887 41\nstat /a\nwhere /a\nread /a 549755813886 5\nappend /a 41",
        "ok\nok\nfile 549755813888\nat 6047313952768 9\ndata 0041\nerror too big\n",
    ),
    (
        "create /a\nfill /a 0 16777216 65\nstat /a\nwrite /a 0 41",
        "ok\nerror no pages\nfile 0\nok\n",
    ),
    (
        "create /a\nwrite /a 0 41\nwhere /a\ntruncate /a 4097\nwhere /a\nread /a 0 2",
        "ok\nok\nat 5497558142976 0\nok\nat 5497558171648 1\ndata 4100\n",
    ),
    (
        "create /a\nfill /a 0 262144 65\nappend /a 42\nwhere /a\nread /a 262143 5",
        "ok\nok\nok\nat 5497560236032 3\ndata 4142\n",
    ),
    (
        "create /a\nfill /a 0 12288 65\ntruncate /a 5000\ntruncate /a 12288\nread /a 4998 4\ntruncate /a 0\nwhere /a\ntruncate /a 3\nread /a 0 9\nunlink /a\ncreate /b\nwrite /b 0 42\nwhere /b",
        "ok\nok\nok\nok\ndata 41410000\nok\nat 0 15\nok\ndata 000000\nok\nok\nok\nat 5497558142976 0\n",
    ),
    (
        "create /a\ntruncate /a 134217728\ncreate /b\ntruncate /b 134217728\nwrite /a 0 41\nwrite /b 4096 42\nexchange /a 0 /b 4096 4096\nread /a 0 1\nread /b 4096 1\nexchange /a 0 /b 0 2097152\nread /a 4096 1\nread /b 0 1\nexchange /a 4096 /a 134213632 4096\nread /a 134213632 1\nexchange /a 8192 /b 4096 16384000\nexchange /a 8192 /b 4096 16388096\nexchange /a 0 /a 4096 8192\nexchange /a 0 /b 0 0",
        "ok\nok\nok\nok\nok\nok\nok\ndata 42\ndata 41\nok\ndata 41\ndata 42\nok\ndata 41\nok\nerror too long\nerror overlap\nok\n",
    ),
];

/// Scripts with names that change.
pub const NAMES: [(&str, &str); 3] = [
    (
        "mkdir /d\nrename /d /d/e\nrename /d /d\nrename / /x",
        "ok\nerror into itself\nok\nerror is the root\n",
    ),
    (
        "mkdir /d\ncreate /d/b\ncreate /d/aa\nrename /d/b /c\nrmdir /d\nunlink /d/aa\nrmdir /d\nlist /",
        "ok\nok\nok\nok\nerror not empty\nok\nok\nnames c\n",
    ),
    (
        "mkdir /home\ncreate /home/notes.txt\nappend /home/notes.txt 48656c6c6f0a\nappend /home/notes.txt 776f726c640a\nread /home/notes.txt 0 64\nstat /home/notes.txt\nrename /home/notes.txt /home/old%20notes\nlist /home\nstat /home\nunlink /home/old%20notes\nrmdir /home\nstat /",
        "ok\nok\nok\nok\ndata 48656c6c6f0a776f726c640a\nfile 12\nok\nnames old%20notes\ndir 1\nok\nok\ndir 0\n",
    ),
];

fn show_names(out: &mut MemSink, quote: &mut Quote, names: &NameList) -> Result<(), WriteFault> {
    put_names(out)?;
    for i in 0..10 {
        match names.get(i) {
            Some(name) if name.len() <= NAME_BYTES => put_name(out, quote, name)?,
            _ => break,
        }
    }
    put_end(out)
}

fn show(out: &mut MemSink, quote: &mut Quote, reply: &Reply) -> Result<(), WriteFault> {
    let shown = match reply {
        Reply::Done => Shown::Done,
        Reply::Data(data) => Shown::Data(data.as_slice()),
        Reply::File(size) => Shown::File(*size),
        Reply::Dir(count) => Shown::Dir(*count),
        Reply::Names(names) => return show_names(out, quote, names),
        Reply::At { base, level } => Shown::At {
            base: *base,
            level: *level,
        },
        Reply::Refused(refusal) => Shown::Refused(*refusal),
        Reply::BadLine => Shown::BadLine,
    };
    put_reply(out, &shown)
}

// What a plain tree is asked with, line by line.
#[derive(Drop)]
struct Asked {
    tree: PlainTree,
    scratch: Scratch,
    quote: Quote,
    out: MemSink,
}

impl Asked {
    fn new(alloc: Global) -> Result<Asked, Fail> {
        Ok(Asked {
            tree: PlainTree::new(alloc)?,
            scratch: Scratch::new(alloc)?,
            quote: Quote::new(alloc)?,
            out: MemSink::new(alloc, 1 << 16, Vec::new(alloc))?,
        })
    }

    // Writes the line that answers a line.
    fn ask(&mut self, line: &str) -> Result<(), Fail> {
        let Some(call) = parse(line.as_bytes(), &mut self.scratch) else {
            return Ok(put_reply(&mut self.out, &Shown::BadLine)?);
        };
        let reply = self.tree.call(&call)?;
        Ok(show(&mut self.out, &mut self.quote, &reply)?)
    }
}

// The lines that answer a script over the plain tree.
fn answers(alloc: Global, script: &str) -> Result<MemSink, Fail> {
    let mut asked = Asked::new(alloc)?;
    for line in script.split('\n') {
        asked.ask(line)?;
    }
    Ok(asked.out)
}

fn check_rows(rt: &impl Abort, alloc: Global, rows: &[(&str, &str)]) -> Result<(), Fail> {
    for (script, want) in rows {
        let out = answers(alloc, script)?;
        assert_eq!(rt; out.bytes(), want.as_bytes(), "{script}");
    }
    Ok(())
}

#[test]
fn the_plain_tree_answers(rt: HostRuntime) -> Result<(), Fail> {
    check_rows(&rt, rt.alloc(), &ENTRIES)?;
    check_rows(&rt, rt.alloc(), &BYTES)?;
    check_rows(&rt, rt.alloc(), &AGAIN)?;
    check_rows(&rt, rt.alloc(), &NAMES)
}
