//! Worked commands over one small volume, and over folders that differ from it in one place.
use crate::sample::{
    Change, ENTRIES, IDX, INFORMATION, RESPELLED, pair, sample, stream, sums_of_halves,
};
use aff_fields::{Entry, write_entries};
use aff_memory::{MemoryFolder, MemorySink};
use aff_offline::run_offline;
use std::alloc::{Alloc, Global};
use std::str;
use std::test::Fail;
use std::thread::Threads;

/// What `info` says of the sample.
const DESCRIBED: &str = "0 volume aff4://11111111-2222-4333-8444-555555555555
size 2560
stored 65536
gap UnknownData
md5 9d748df02245d824849e3fd753d25f62
sha1 b12067afc58359925ff78625775d2bd9c0d2c895
sha256 049f821dea928e875681406c4152fe414788ca91081c139871df3a502574880a
sha512 64605c1f367e94b4fdf4f5bbaee6657018ed0f734b1222ec9ca0dbb1a4fd73f152eefd9970ccefe5fdc697a2c2868318ad77cf02c4236465aeef35515e66b824
blockmap a4621928addf1cdd7a3c22eb37be68c662ddfcb119fc2dcf987b919c0c14054de4170ad8fe624061d602b4720d05f42bda13503d36b90f5b384e4b9858279209
aside 0
";

/// Metadata of a stream and an image, before what is said of the stream's chunks.
const BEGUN: &str = "@prefix a: <http://aff4.org/Schema#> .
<aff4://11111111-2222-4333-8444-555555555555/image> a a:Map .
<aff4://11111111-2222-4333-8444-555555555555/data> a a:ImageStream ; a:size 65536 ; a:chunksInSegment 1024 ; a:chunkSize ";

/// The status of a command over a folder, a space, and what it writes to a sink whose calls of these numbers fail.
fn told<R: Alloc<A = Global> + Threads + Sync>(
    rt: &R,
    words: &[&str],
    folder: &mut MemoryFolder,
    fail: Vec<u64>,
) -> Result<String, Fail> {
    let alloc = rt.alloc();
    let mut sink = MemorySink::new(alloc, fail);
    let status = run_offline(rt, alloc, words, folder, &mut sink);
    match str::from_utf8(sink.written()) {
        Ok(text) => Ok(format!(in alloc; "{status} {text}")?),
        Err(_) => Err("no text")?,
    }
}

/// The same over the sample with a change, to a sink that does not fail.
fn said<R: Alloc<A = Global> + Threads + Sync>(
    rt: &R,
    words: &[&str],
    change: Change<'_>,
) -> Result<String, Fail> {
    let alloc = rt.alloc();
    let mut folder = sample(alloc, Vec::new(alloc), change)?;
    told(rt, words, &mut folder, Vec::new(alloc))
}

#[test]
fn commands_over_a_whole_volume(rt: HostRuntime) -> Result<(), Fail> {
    let alloc = rt.alloc();
    let uuid = "11111111-2222-4333-8444-555555555555";
    let rows: [(&[&str], &str); 17] = [
        (&["info", "F"], DESCRIBED),
        (&["verify", "F"], "0 sound\n"),
        (&["read", "F", "510", "4"], "0 \u{8}\tLE"),
        (&["read", "F", "2558", "2"], "0 NO"),
        (&["read", "F", "2560", "0"], "0 "),
        (&["read", "F", "2560", "1"], "3 error read pastend\n"),
        (&["read", "F", "2561", "0"], "3 error read pastend\n"),
        (&["read", "F", "1", "2560"], "3 error read pastend\n"),
        (
            &["read", "F", "18446744073709551615", "1"],
            "3 error read pastend\n",
        ),
        (&["read", "F", "0", "1048576"], "3 error read pastend\n"),
        (&["read", "F", "0", "1048577"], "3 error read toolong\n"),
        (&["read", "F", "01", "1"], "2 error usage\n"),
        (&["read", "F", "1"], "2 error usage\n"),
        (&["info", ""], "2 error usage\n"),
        (&[], "2 error usage\n"),
        (&["--help"], "2 error usage\n"),
        (&["acquire", "F", uuid, "D"], "2 error usage\n"),
    ];
    for (words, expected) in rows {
        assert_eq!(rt; said(&rt, words, Change::Nothing)?.as_str(), expected);
    }
    Ok(())
}

/// Whether each command over the sample with a change says this line, and nothing else.
fn is_refused<R: Alloc<A = Global> + Threads + Sync>(
    rt: &R,
    change: Change<'_>,
    line: &str,
) -> Result<bool, Fail> {
    let info = said(rt, &["info", "F"], change)?;
    let verify = said(rt, &["verify", "F"], change)?;
    let read = said(rt, &["read", "F", "0", "0"], change)?;
    Ok(info.as_str() == line && verify.as_str() == line && read.as_str() == line)
}

#[test]
fn folders_without_a_whole_volume(rt: HostRuntime) -> Result<(), Fail> {
    let alloc = rt.alloc();
    let text = INFORMATION.as_bytes();
    let data = "00000000";
    let index = "00000000.index";
    let md5 = "00000000.blockHash.md5";
    let sha256 = "00000000.blockHash.sha256";
    let metadata = "information.turtle";
    let bytes = stream(alloc)?;
    // A bevvy without its last byte, and two targets with a third that is none.
    let short = &bytes[..bytes.len().saturating_sub(1)];
    let targets =
        "aff4://11111111-2222-4333-8444-555555555555/data\nhttp://aff4.org/Schema#Zero\nx\n";
    let rows: [(Change<'_>, &str); 16] = [
        (Change::Without(metadata), "8 error volume noinformation\n"),
        (
            Change::Has(metadata, &[]),
            "8 error volume info missing stream\n",
        ),
        (
            Change::Has(metadata, &[32, 255]),
            "8 error volume turtle utf8 1\n",
        ),
        (
            Change::Has(metadata, b"\n<a:a> b:b <a:a> ."),
            "8 error volume turtle noprefix 2\n",
        ),
        (
            Change::Has(metadata, b"[ ] ."),
            "8 error volume turtle unsupported 1\n",
        ),
        (
            Change::Has(metadata, &text[..text.len().saturating_sub(2)]),
            "8 error volume turtle syntax 16\n",
        ),
        (Change::Without("map"), "8 error volume nomap\n"),
        (Change::Without("idx"), "8 error volume nomap\n"),
        (Change::Without(data), "8 error volume stream nosegment 0\n"),
        (
            Change::Without(index),
            "8 error volume stream nosegment 0\n",
        ),
        (
            Change::Has(data, short),
            "8 error volume stream pointpastend 1\n",
        ),
        (
            Change::Has(index, &[0; 11]),
            "8 error volume stream ragged 0\n",
        ),
        (
            Change::Has(index, &[0; 24]),
            "8 error volume stream pointlength 0 0\n",
        ),
        (Change::Has(md5, &[0; 15]), "8 error volume blockhashes 0\n"),
        (Change::Without(sha256), "8 error volume blockhashes 0\n"),
        (
            Change::Has("idx", targets.as_bytes()),
            "8 error volume map badtarget 3\n",
        ),
    ];
    for (change, line) in rows {
        assert!(rt; is_refused(&rt, change, line)?, "{line}");
    }
    Ok(())
}

/// Whether each command says this line of the sample with other metadata.
fn is_refused_by<R: Alloc<A = Global> + Threads + Sync>(
    rt: &R,
    first: &str,
    second: &str,
    line: &str,
) -> Result<bool, Fail> {
    let text = format!(in rt.alloc(); "{first}{second}")?;
    is_refused(rt, Change::Has("information.turtle", text.as_bytes()), line)
}

#[test]
fn metadata_that_are_refused(rt: HostRuntime) -> Result<(), Fail> {
    let alloc = rt.alloc();
    let twice =
        "<aff4://11111111-2222-4333-8444-555555555555/image> <http://aff4.org/Schema#size> 1 .";
    let rows = [
        (INFORMATION, twice, "8 error volume info twice imagesize\n"),
        (BEGUN, "32767 .", "8 error volume info badvalue chunksize\n"),
        (BEGUN, "32768 .", "8 error volume info missing method\n"),
        (
            BEGUN,
            "32768 ; a:compressionMethod <a:b> .",
            "8 error volume info method a:b\n",
        ),
    ];
    for (first, second, line) in rows {
        assert!(rt; is_refused_by(&rt, first, second, line)?, "{line}");
    }
    Ok(())
}

/// Whether each command says this line of the sample with other entries.
fn has_bad_map<R: Alloc<A = Global> + Threads + Sync>(
    rt: &R,
    entries: &[Entry],
    line: &str,
) -> Result<bool, Fail> {
    let map = write_entries(rt.alloc(), entries).map_err(|_| "no map")?;
    is_refused(rt, Change::Has("map", &map), line)
}

fn entry(at: u64, len: u64, target_at: u64, target: u32) -> Entry {
    Entry {
        at,
        len,
        target_at,
        target,
    }
}

#[test]
fn maps_that_are_refused(rt: HostRuntime) -> Result<(), Fail> {
    let alloc = rt.alloc();
    let rows: [(&[Entry], &str); 5] = [
        (
            &[entry(0, 512, 0, 0), entry(0, 512, 0, 0)],
            "8 error volume map overlap 0 1\n",
        ),
        (
            &[entry(0, 512, 0, 0), entry(512, 0, 0, 0)],
            "8 error volume map empty 1\n",
        ),
        (
            &[entry(2_048, 1_024, 0, 0)],
            "8 error volume map pastend 0\n",
        ),
        (&[entry(0, 512, 0, 3)], "8 error volume map notarget 0\n"),
        (
            &[entry(0, 512, 65_536, 0)],
            "8 error volume map pasttarget 0\n",
        ),
    ];
    for (entries, line) in rows {
        assert!(rt; has_bad_map(&rt, entries, line)?, "{line}");
    }
    assert!(rt;
        is_refused(
            &rt,
            Change::Has("map", &[0; 27]),
            "8 error volume map ragged 27\n"
        )?
    );
    Ok(())
}

/// Whether a volume with a change is verified with this line, and its bytes around offset 1,024 are read with that one.
fn is_found<R: Alloc<A = Global> + Threads + Sync>(
    rt: &R,
    change: Change<'_>,
    verified: &str,
    read: &str,
) -> Result<bool, Fail> {
    let found = said(rt, &["verify", "F"], change)?;
    let bytes = said(rt, &["read", "F", "1022", "4"], change)?;
    Ok(found.as_str() == verified && bytes.as_str() == read)
}

#[test]
fn volumes_that_are_damaged(rt: HostRuntime) -> Result<(), Fail> {
    let alloc = rt.alloc();
    let text = INFORMATION.as_bytes();
    let bytes = stream(alloc)?;
    let (first, second) = sums_of_halves(bytes.as_slice());
    let mut changed = stream(alloc)?;
    changed[65_535] = 8;
    let md5 = pair(alloc, &second.md5, &second.md5)?;
    let sha1 = pair(alloc, &first.sha1, &first.sha1)?;
    let sha256 = pair(alloc, &first.sha256, &first.sha256)?;
    // An image without its last stored run has other bytes; a target more is another list.
    let map = write_entries(alloc, &ENTRIES[..2]).map_err(|_| "no map")?;
    let idx = format!(in alloc; "{IDX}http://aff4.org/Schema#UnknownData")?;
    let whole = "0 UN\u{7}\u{7}";
    let rows: [(Change<'_>, &str, &str); 8] = [
        (
            Change::Has("information.turtle", RESPELLED.as_bytes()),
            "0 sound\n",
            whole,
        ),
        (
            Change::Has("information.turtle", &text[..text.len().saturating_sub(1)]),
            "0 sound\n",
            whole,
        ),
        (
            Change::Has("00000000", &changed),
            "9 unsound block md5 1 ac0c9be3f8ddf7d372166337e82989b7 640f3143aef4a36f99b77de5aad11284\n",
            "9 damaged 1 40f7dc455a85f953580d6f3c11cf3b90413e53c41a4dd111100ad02ebfa49d33 afd6256c1ba8b320f6c99ac9b2c85678d001c3b36c4573480d190bc23d75ed2f\n",
        ),
        (
            Change::Has("00000000.blockHash.md5", &md5),
            "9 unsound block md5 0 ac0c9be3f8ddf7d372166337e82989b7 a9ab613dcfcd605013eccd686ace8922\n",
            whole,
        ),
        (
            Change::Has("00000000.blockHash.sha1", &sha1),
            "9 unsound block sha1 1 9dbe5260858a0f960c062aa8f8d3914ff5bde250 cc8691536ffc34d8382612049e2a88362127c85c\n",
            whole,
        ),
        (
            Change::Has("00000000.blockHash.sha256", &sha256),
            "9 unsound block sha256 1 09fed9cbfb98b6ab0f3e8ff63b7b1f9b0e07d58b225295c78fdc023cc4985a72 40f7dc455a85f953580d6f3c11cf3b90413e53c41a4dd111100ad02ebfa49d33\n",
            "9 damaged 1 09fed9cbfb98b6ab0f3e8ff63b7b1f9b0e07d58b225295c78fdc023cc4985a72 40f7dc455a85f953580d6f3c11cf3b90413e53c41a4dd111100ad02ebfa49d33\n",
        ),
        (
            Change::Has("map", &map),
            "9 unsound linear md5 9d748df02245d824849e3fd753d25f62 1d60ad7a2fb736224543c347e2afdf90\n",
            "0 UNKN",
        ),
        (
            Change::Has("idx", idx.as_bytes()),
            "9 unsound blockmap a4621928addf1cdd7a3c22eb37be68c662ddfcb119fc2dcf987b919c0c14054de4170ad8fe624061d602b4720d05f42bda13503d36b90f5b384e4b9858279209 7da346426a079ec57e41bfb162dd9e3c2c727b29048b7b6144dbcdb38f8cb46de44d015f30925e39a87f941baea34d25b8282172d9b6cde4225c23ae4976a06e\n",
            whole,
        ),
    ];
    for (change, verified, read) in rows {
        assert!(rt; is_found(&rt, change, verified, read)?, "{verified}");
    }
    Ok(())
}

/// The number of the next call, alone.
fn next(alloc: Global, made: u64) -> Result<Vec<u64>, Fail> {
    let mut calls = Vec::new(alloc);
    calls.push(made.saturating_add(1))?;
    Ok(calls)
}

#[test]
fn a_folder_or_a_sink_fails(rt: HostRuntime) -> Result<(), Fail> {
    let alloc = rt.alloc();
    let made = sample(alloc, Vec::new(alloc), Change::Nothing)?.calls();
    let mut failing = sample(alloc, next(alloc, made)?, Change::Nothing)?;
    let folder = told(&rt, &["info", "F"], &mut failing, Vec::new(alloc))?;
    assert_eq!(rt; folder.as_str(), "6 error folder\n");
    // This sink writes nothing where it fails. A fault keeps its status.
    let mut whole = sample(alloc, Vec::new(alloc), Change::Nothing)?;
    let answer = told(&rt, &["read", "F", "510", "4"], &mut whole, next(alloc, 0)?)?;
    assert_eq!(rt; answer.as_str(), "5 ");
    let fault = told(
        &rt,
        &["read", "F", "2560", "1"],
        &mut whole,
        next(alloc, 0)?,
    )?;
    assert_eq!(rt; fault.as_str(), "3 ");
    Ok(())
}
