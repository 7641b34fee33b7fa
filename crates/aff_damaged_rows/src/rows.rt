//! The table of damaged folders: which segment of the small volume is changed in which place, and what `verify`, `info` and
//! `read` then say. Digests come from another program.
use crate::change::Change;

/// What the commands say, each with its status before it.
#[derive(Clone, Copy)]
pub enum Says {
    /// The folder is refused as a volume: all three say this line.
    Refused(&'static str),
    /// It is opened. `info` says what it says of the whole volume, but for the line of a number; and `verify`, and `read` of the
    /// first four bytes, say these.
    Opened {
        info: Option<(usize, &'static str)>,
        verify: &'static str,
        read: &'static str,
    },
}

/// A segment by the last word of its name, what was done to it, and what is said.
#[derive(Clone, Copy)]
pub struct Row {
    pub segment: &'static str,
    pub change: Change,
    pub says: Says,
}

/// Of the metadata, and of a segment that no command reads.
pub const METADATA: [Row; 18] = [
    Row {
        segment: "information.turtle",
        change: Change::Gone,
        says: Says::Refused("8 error volume noinformation\n"),
    },
    Row {
        segment: "information.turtle",
        change: Change::Empty,
        says: Says::Refused("8 error volume info missing stream\n"),
    },
    Row {
        segment: "information.turtle",
        change: Change::LastLineGone,
        says: Says::Refused("8 error volume info missing blockmap\n"),
    },
    Row {
        segment: "information.turtle",
        change: Change::Cut(2),
        says: Says::Refused("8 error volume turtle syntax 16\n"),
    },
    Row {
        segment: "information.turtle",
        change: Change::Cut(1),
        says: Says::Opened {
            info: None,
            verify: "0 sound\n",
            read: "0 abcd",
        },
    },
    Row {
        segment: "information.turtle",
        change: Change::Byte(0, 255),
        says: Says::Refused("8 error volume turtle utf8 0\n"),
    },
    Row {
        segment: "information.turtle",
        change: Change::Byte(0, b'a'),
        says: Says::Refused("8 error volume turtle noprefix 1\n"),
    },
    Row {
        segment: "information.turtle",
        change: Change::Text("NullCompressor", "Deflate"),
        says: Says::Refused("8 error volume info method http://aff4.org/Schema#Deflate\n"),
    },
    Row {
        segment: "information.turtle",
        change: Change::Text("\"32768\"", "\"32767\""),
        says: Says::Opened {
            info: Some((2, "stored 32767")),
            verify: "0 sound\n",
            read: "0 abcd",
        },
    },
    Row {
        segment: "information.turtle",
        change: Change::Text("chunkSize> \"32768", "chunkSize> \"32767"),
        says: Says::Refused("8 error volume info badvalue chunksize\n"),
    },
    Row {
        segment: "information.turtle",
        change: Change::Text("\"512\"", "\"513\""),
        says: Says::Opened {
            info: Some((1, "size 513")),
            verify: "9 unsound linear md5 956b5935bcb6d4b55e9f72e258c0f82d e9ae0b8b2709642be3913c163d48ae70\n",
            read: "0 abcd",
        },
    },
    Row {
        segment: "information.turtle",
        change: Change::Text("\"512\"", "\"511\""),
        says: Says::Refused("8 error volume map pastend 0\n"),
    },
    Row {
        segment: "information.turtle",
        change: Change::Text("\"956b5935", "\"00000000"),
        says: Says::Opened {
            info: Some((4, "md5 00000000bcb6d4b55e9f72e258c0f82d")),
            verify: "9 unsound linear md5 00000000bcb6d4b55e9f72e258c0f82d 956b5935bcb6d4b55e9f72e258c0f82d\n",
            read: "0 abcd",
        },
    },
    Row {
        segment: "information.turtle",
        change: Change::Text("\"8d58c2c3", "\"00000000"),
        says: Says::Opened {
            info: Some((5, "sha1 00000000410328c75aef6bc02d30a241eff07d99")),
            verify: "9 unsound linear sha1 00000000410328c75aef6bc02d30a241eff07d99 8d58c2c3410328c75aef6bc02d30a241eff07d99\n",
            read: "0 abcd",
        },
    },
    Row {
        segment: "information.turtle",
        change: Change::Text("\"8142abfb", "\"00000000"),
        says: Says::Opened {
            info: Some((
                6,
                "sha256 00000000514fff78b671f4e447bd1509cf7ea1708f374e36c4daad63ee3dd94b",
            )),
            verify: "9 unsound linear sha256 00000000514fff78b671f4e447bd1509cf7ea1708f374e36c4daad63ee3dd94b 8142abfb514fff78b671f4e447bd1509cf7ea1708f374e36c4daad63ee3dd94b\n",
            read: "0 abcd",
        },
    },
    Row {
        segment: "information.turtle",
        change: Change::Text("\"d16cfb22", "\"00000000"),
        says: Says::Opened {
            info: Some((
                7,
                "sha512 000000005bb6f7d1d0f034b6ac8076cc6a805c0d14843af6d25fc5d1c0afc0a8e7ee96a189d619c05659f1881094e9f761aa8ae5016b34e1628b63823c364ba7",
            )),
            verify: "9 unsound linear sha512 000000005bb6f7d1d0f034b6ac8076cc6a805c0d14843af6d25fc5d1c0afc0a8e7ee96a189d619c05659f1881094e9f761aa8ae5016b34e1628b63823c364ba7 d16cfb225bb6f7d1d0f034b6ac8076cc6a805c0d14843af6d25fc5d1c0afc0a8e7ee96a189d619c05659f1881094e9f761aa8ae5016b34e1628b63823c364ba7\n",
            read: "0 abcd",
        },
    },
    Row {
        segment: "information.turtle",
        change: Change::Text("\"fc08b524", "\"00000000"),
        says: Says::Opened {
            info: Some((
                8,
                "blockmap 00000000ba1743efc91923fd2ca18fc18c7b519049d5bf3456d9fd115d9b2511c5dcbee3f6336f99c2fccdd2ee88a0a58815331afe952c1d085e0a546e4cde50",
            )),
            verify: "9 unsound blockmap 00000000ba1743efc91923fd2ca18fc18c7b519049d5bf3456d9fd115d9b2511c5dcbee3f6336f99c2fccdd2ee88a0a58815331afe952c1d085e0a546e4cde50 fc08b524ba1743efc91923fd2ca18fc18c7b519049d5bf3456d9fd115d9b2511c5dcbee3f6336f99c2fccdd2ee88a0a58815331afe952c1d085e0a546e4cde50\n",
            read: "0 abcd",
        },
    },
    Row {
        segment: "version.txt",
        change: Change::Gone,
        says: Says::Opened {
            info: None,
            verify: "0 sound\n",
            read: "0 abcd",
        },
    },
];

/// Of the bevvy and its index.
pub const STREAM: [Row; 7] = [
    Row {
        segment: "00000000",
        change: Change::Gone,
        says: Says::Refused("8 error volume stream nosegment 0\n"),
    },
    Row {
        segment: "00000000",
        change: Change::Cut(1),
        says: Says::Refused("8 error volume stream pointpastend 0\n"),
    },
    Row {
        segment: "00000000",
        change: Change::Byte(32_767, 1),
        says: Says::Opened {
            info: None,
            verify: "9 unsound block md5 0 918d61dd6b14e2251d484a6141404d83 a57d6a0ce63860d1a9a45b6570512d29\n",
            read: "9 damaged 0 b094344f05f133f9175f3a5ae69e883a6d7831f34cae5af3390fa794abf9a57c 0aa394c848b298aaa0bde06c0d97581136b758192345f0cc0219425abb1b160b\n",
        },
    },
    Row {
        segment: "00000000.index",
        change: Change::Gone,
        says: Says::Refused("8 error volume stream nosegment 0\n"),
    },
    Row {
        segment: "00000000.index",
        change: Change::Cut(1),
        says: Says::Refused("8 error volume stream ragged 0\n"),
    },
    Row {
        segment: "00000000.index",
        change: Change::Byte(0, 1),
        says: Says::Refused("8 error volume stream pointpastend 0\n"),
    },
    Row {
        segment: "00000000.index",
        change: Change::Byte(9, 0),
        says: Says::Refused("8 error volume stream pointlength 0 0\n"),
    },
];

/// Of the block hashes.
pub const BLOCK_HASHES: [Row; 6] = [
    Row {
        segment: "00000000.blockHash.md5",
        change: Change::Cut(1),
        says: Says::Refused("8 error volume blockhashes 0\n"),
    },
    Row {
        segment: "00000000.blockHash.sha1",
        change: Change::Gone,
        says: Says::Refused("8 error volume blockhashes 0\n"),
    },
    Row {
        segment: "00000000.blockHash.sha256",
        change: Change::Twice,
        says: Says::Refused("8 error volume blockhashes 0\n"),
    },
    Row {
        segment: "00000000.blockHash.md5",
        change: Change::Byte(0, 0),
        says: Says::Opened {
            info: None,
            verify: "9 unsound block md5 0 008d61dd6b14e2251d484a6141404d83 918d61dd6b14e2251d484a6141404d83\n",
            read: "0 abcd",
        },
    },
    Row {
        segment: "00000000.blockHash.sha1",
        change: Change::Byte(0, 0),
        says: Says::Opened {
            info: None,
            verify: "9 unsound block sha1 0 00fa13f9e720be2f78ab48ef79543bae47eb905a f9fa13f9e720be2f78ab48ef79543bae47eb905a\n",
            read: "0 abcd",
        },
    },
    Row {
        segment: "00000000.blockHash.sha256",
        change: Change::Byte(0, 0),
        says: Says::Opened {
            info: None,
            verify: "9 unsound block sha256 0 0094344f05f133f9175f3a5ae69e883a6d7831f34cae5af3390fa794abf9a57c b094344f05f133f9175f3a5ae69e883a6d7831f34cae5af3390fa794abf9a57c\n",
            read: "9 damaged 0 0094344f05f133f9175f3a5ae69e883a6d7831f34cae5af3390fa794abf9a57c b094344f05f133f9175f3a5ae69e883a6d7831f34cae5af3390fa794abf9a57c\n",
        },
    },
];

/// Of the map and the list of its targets.
pub const TABLES: [Row; 13] = [
    Row {
        segment: "map",
        change: Change::Gone,
        says: Says::Refused("8 error volume nomap\n"),
    },
    Row {
        segment: "map",
        change: Change::Cut(1),
        says: Says::Refused("8 error volume map ragged 27\n"),
    },
    Row {
        segment: "map",
        change: Change::Twice,
        says: Says::Refused("8 error volume map overlap 0 1\n"),
    },
    Row {
        segment: "map",
        change: Change::Byte(9, 0),
        says: Says::Refused("8 error volume map empty 0\n"),
    },
    Row {
        segment: "map",
        change: Change::Byte(9, 4),
        says: Says::Refused("8 error volume map pastend 0\n"),
    },
    Row {
        segment: "map",
        change: Change::Byte(24, 3),
        says: Says::Refused("8 error volume map notarget 0\n"),
    },
    Row {
        segment: "map",
        change: Change::Byte(17, 128),
        says: Says::Refused("8 error volume map pasttarget 0\n"),
    },
    Row {
        segment: "map",
        change: Change::Byte(16, 1),
        says: Says::Opened {
            info: None,
            verify: "9 unsound linear md5 956b5935bcb6d4b55e9f72e258c0f82d e1818d9a2cf92f7ac930d717cdea9600\n",
            read: "0 bcde",
        },
    },
    Row {
        segment: "map",
        change: Change::Byte(24, 2),
        says: Says::Opened {
            info: None,
            verify: "9 unsound linear md5 956b5935bcb6d4b55e9f72e258c0f82d aa5438c1f2fb2d9e5278c8d8bf92432f\n",
            read: "0 UNRE",
        },
    },
    Row {
        segment: "map",
        change: Change::Empty,
        says: Says::Opened {
            info: None,
            verify: "9 unsound linear md5 956b5935bcb6d4b55e9f72e258c0f82d 3df800501e62fab2ba2690ea81f23619\n",
            read: "0 UNKN",
        },
    },
    Row {
        segment: "idx",
        change: Change::Gone,
        says: Says::Refused("8 error volume nomap\n"),
    },
    Row {
        segment: "idx",
        change: Change::Text("http://aff4.org/Schema#UnreadableData", "x"),
        says: Says::Refused("8 error volume map badtarget 3\n"),
    },
    Row {
        segment: "idx",
        change: Change::Cut(1),
        says: Says::Opened {
            info: None,
            verify: "9 unsound blockmap fc08b524ba1743efc91923fd2ca18fc18c7b519049d5bf3456d9fd115d9b2511c5dcbee3f6336f99c2fccdd2ee88a0a58815331afe952c1d085e0a546e4cde50 798ae37376da362ca52a06c621a45599ffab9c9d954474ed9b7a6ac0525b52d5c065d68c35243af27d04c44fc42b396f581f3634e80d61f0383a63e203b4413e\n",
            read: "0 abcd",
        },
    },
];
