// Recorded messages, and the lines that an independent model shows of them.
use crate::Direction;

#[derive(Clone, Copy, Drop)]
pub struct Row {
    pub direction: Direction,
    pub bytes: &'static [u8],
    pub text: &'static [u8],
    pub canonical: bool,
}

pub const SHOWN: [Row; 7] = [
    Row {
        direction: Direction::ToServer,
        bytes: b"\x18\x01\"{\n?\n\"!;\xdc\x86a\x04\xa7\x97\xa1\xa6d\xd2\xc5N\x84\xec\xa9}3|\
            \xb7S\x8dy\xedqr\xdeLa\x04\xe7\xeeV \x80\x01\x90\x01\x01\xaa\x01\x12\n\x0c\n\x01\
            \xa6\x12\x07&\x0b\x88=\x9b\xe5p\xb2\xb4\x12\x00\n8\n\x02Z\x17 \xff\xff\xff\xff\xff\
            \xff\xff\xff\xff\x01\x90\x01\x01\xaa\x01\x04\xb2\xb4\x12\x00\xba\x01\x1cLFxLIHr7c8\
            2hBRcxeAwHNttpCLc=:\x016",
        text: b"commit - entries 2\nentity !;%DC%86a%04%A7%97%A1%A6d%D2%C5N%84%EC%A9}3|%B7S%8D\
            y%EDqr%DELa%04%E7%EEV version 128 deleted 1 hash none sealed preference %A6 7\nent\
            ity Z%17 version -1 deleted 1 hash LFxLIHr7c82hBRcxeAwHNttpCLc= empty preference\n\
            birthday 6\ncanonical\n",
        canonical: true,
    },
    Row {
        direction: Direction::FromServer,
        bytes: b" \x84\x8c\xb8\xf4\x032\x01\xdd \x84\x8c\xb8\xf4\x03",
        text: b"error 1049495044\nbirthday %DD\nother\n",
        canonical: false,
    },
    Row {
        direction: Direction::ToServer,
        bytes: b"\x18\x01\"\x91\x01\nP\xaa\x01.\xb2\xb4\x12*\n\x00\x12\x02\xc0\xe9\xc3\xd7\xcc\
            \xd4\x08\xe1\x02\xc0cbp~}\x1a\xef\xa2\x01\x00\xc4\xd7\xcc\xd4\x08\xd9\xc7\xe4\xe1\
            \x0e\xb1\xa3\x8f\x89\x99L\x8e\xf3\xba\x01\x1cLIF/t7DDTvZ+UI4/I4TZ1otXIiI=\n=\n\x02\
            \xc7\x10 \xff\xff\xff\xff\xff\xff\xff\xff\xff\x01\xaa\x01\x0c\x8a\xb3\x16\x08\n\
            \x06\n\x01\xc5\x12\x01\xcc\xba\x01\x1cTJzBUK6m8wq6Jmg55S6gHkq/hDc=:\x09|&$\xbf\x87\
            Vt\x81\x83",
        text: b"commit - entries 2\nentity - version 0 deleted 0 hash LIF/t7DDTvZ+UI4/I4TZ1otX\
            IiI= preference - %C0%E9\nentity %C7%10 version -1 deleted 0 hash TJzBUK6m8wq6Jmg5\
            5S6gHkq/hDc= sealed password %C5 1\nbirthday |&$%BF%87Vt%81%83\ncanonical\n",
        canonical: true,
    },
    Row {
        direction: Direction::ToServer,
        bytes: b"\x18\x02*@2\x0e\x08\xc6\xa6\x02\x12\x08\x00\x00\x00\x00\x00\x00\x01,2\x0e\x08\xb1\
            \xe6\x02\x12\x08\x00\x00\x00\x16~O-\xcf2\x0e\x08\xc6\xa6\x02\x12\x08\x00\x00\x00\x00\
            \x00\x00\x00\x002\x0e\x08\xc6\xa6\x02\x12\x08\x00\x00\x00\x00\x00\x00\x00\x80",
        text: b"updates marks 4\nmark preference 300\nmark password 96608398799\nmark preference 0\n\
            mark preference 128\nno birthday\ncanonical\n",
        canonical: true,
    },
    Row {
        direction: Direction::FromServer,
        bytes: b"\x12\xe4\x01\n*\n\x01q \xab\x91\xb8\x0c\x90\x01\x01\xba\x01\x1c2X2g5696mz78sbe8B1n/w\
            E5E5Tw=\n\x1f\n\x02\xb0\xf9 \x02\xaa\x01\x16\x8a\xa8\x17\x12\n\x0d\n\x09`\xf5\x01\
            \x02;\xd72\x06\x04\x12\x00\xf0\x01\x01\n/ \xac\x02\xaa\x01\n\x8a\xb3\x16\x06\n\x04\n\
            \x00\x12\x00\xba\x01\x1cMR19LueYLXtI4cV64p31rWRgEC0=\nD\n#\x84\x84\x0bZL\xecE\xcc\
            \xf8\xe4\xf2`\xe1\"\x88\xf5\xb7\xdaNw\xf3|\xe1\xa3\x1f\xae\x10\x83\n2\xf3\xb4\xc2\
            \xfa\xd7\xba\x01\x1cUz4ni4nhA8Z2uMZw+TA9h/+C1bY=*\x0e\x08\x81\xf5\x02\x12\x08\x00\
            \x00\x00\x00\x00\x00\x00\x7f*\x0e\x08\x81\xf5\x02\x12\x08\xff\xff\xff\xff\xff\xff\
            \xff\xff2\x00",
        text: b"updates 4 remaining 0\nentity q version 26085547 deleted 1 hash 2X2g5696mz78sbe8B1n/\
            wE5E5Tw= none\nentity %B0%F9 version 2 deleted 0 hash none nigori `%F5%01%02;%D72%06\
            %04 0 1\nentity - version 300 deleted 0 hash MR19LueYLXtI4cV64p31rWRgEC0= sealed pas\
            sword - 0\nentity %84%84%0BZL%ECE%CC%F8%E4%F2`%E1\"%88%F5%B7%DANw%F3|%E1%A3%1F%AE%10\
            %83%0A2%F3%B4%C2%FA%D7 version 0 deleted 0 hash Uz4ni4nhA8Z2uMZw+TA9h/+C1bY= none\nm\
            ark nigori 127\nmark nigori 18446744073709551615\nbirthday -\ncanonical\n",
        canonical: true,
    },
    Row {
        direction: Direction::FromServer,
        bytes: b"\n&\x0b\x10\x01\x1a\x01\xa5\x0c\x0b\x10\x01\x1a\x07F\xcb[W\xfaj\xcf0\xac\x02\x0c\x0b\
            \x10\x06\x1a\x02\xdd\xfd\x0c\x0b\x10\x06\x1a\x01\x83\x0c2\x0c@h\xecx\x8a\x00\x08\xe4\
            \xbds&9",
        text: b"committed 4\nanswer 1 %A5 0\nanswer 1 F%CB[W%FAj%CF 300\nanswer 6 %DD%FD 0\nanswer 6\
            \x20%83 0\nbirthday @h%ECx%8A%00%08%E4%BDs&9\ncanonical\n",
        canonical: true,
    },
    Row {
        direction: Direction::FromServer,
        bytes: b" \xff\xff\xff\xff\x072\x02\x88\xc8",
        text: b"error 2147483647\nbirthday %88%C8\ncanonical\n",
        canonical: true,
    },
];
