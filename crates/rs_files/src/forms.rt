//! The commands of the program, with their options and help texts.
use crate::settings::VOLUMES_HELP;
use Takes::{Many, Needed, Nothing, One};

/// What an option takes.
#[derive(Clone, Copy)]
pub enum Takes {
    /// No value.
    Nothing,
    /// A value with this name.
    One(&'static str),
    /// A value with this name. The option must be given.
    Needed(&'static str),
    /// A value with this name. The option can be given several times.
    Many(&'static str),
}

/// An option of a command: its name without dashes, its letter, if it has one, what it takes, and its help text.
#[derive(Clone, Copy)]
pub struct Choice(
    pub &'static str,
    pub Option<char>,
    pub Takes,
    pub &'static str,
);

/// A command.
#[derive(Clone, Copy)]
pub struct Form {
    /// The name of the command.
    pub name: &'static str,
    /// The name and the help text of the paths that the command takes.
    pub paths: (&'static str, &'static str),
    /// What the command does, in one line.
    pub about: &'static str,
    /// The end of the help text: what the exit statuses mean, and examples.
    pub after: &'static str,
    /// The options of the command.
    pub options: &'static [Choice],
}

/// The paths of `create` and `split`.
const FILES: (&str, &str) = ("FILE", "Files and folders, all in one folder");

/// The paths of the commands that read volumes.
const VOLUMES: (&str, &str) = ("VOLUME", "Volumes of one set");

const BLOCK: Choice = Choice(
    "block",
    None,
    One("BYTES"),
    "Cut the files into blocks of this size, e.g. 64K [default: at most 2000 blocks]",
);

const ACCEPT: Choice = Choice(
    "accept",
    None,
    Many("NAME"),
    "Protect this file although its bytes changed and its time did not",
);

const SKIP_NAMES: Choice = Choice(
    "skip-names",
    None,
    Nothing,
    "End with status 0 although names that are not UTF-8 were left out",
);

const FOLDER: Choice = Choice(
    "folder",
    None,
    One("FOLDER"),
    "The files are in this folder [default: the folder of the volume of create]",
);

const SEARCH: Choice = Choice(
    "search",
    None,
    Many("FOLDER"),
    "Look for lost files and blocks in this folder too",
);

const ONLY: Choice = Choice(
    "only",
    None,
    Many("NAME"),
    "Take only this file of the set, or all that is in this folder of the set",
);

const MEMORY: Choice = Choice(
    "memory",
    None,
    One("BYTES"),
    "Use about this much memory, e.g. 64M [default: 1G]",
);

const REPLACE: Choice = Choice("force", None, Nothing, "Replace volumes that exist");

const JSON: Choice = Choice("json", None, Nothing, "Print the result as JSON");

const PROGRESS: Choice = Choice(
    "progress",
    None,
    One("WHEN"),
    "Show progress: auto, always or never [default: auto]",
);

const QUIET: Choice = Choice(
    "quiet",
    Some('q'),
    Nothing,
    "Print only errors and warnings",
);

const CREATE: Form = Form {
    name: "create",
    paths: FILES,
    about: "Make a volume with recovery blocks beside the files",
    after: "Status 0: the volume was made. 3: the old volume was kept, because a file is rotten.\n\
            4: an error, or the volume was made and protects all but names that are not UTF-8.\n\n\
            Example:\n  rs_files create photos -r 20%      writes photos.rsv",
    options: &[
        Choice(
            "output",
            Some('o'),
            One("VOLUME"),
            "Write this volume [default: FILE.rsv, if there is one FILE]",
        ),
        Choice(
            "recovery",
            Some('r'),
            One("COUNT"),
            "Make this many recovery blocks, e.g. 300 or 20% of the blocks (at least 2) [default: 10%]",
        ),
        BLOCK,
        ACCEPT,
        SKIP_NAMES,
        REPLACE,
        MEMORY,
        JSON,
        PROGRESS,
        QUIET,
    ],
};

const SPLIT: Form = Form {
    name: "split",
    paths: FILES,
    about: "Spread the files over volumes",
    after: "Status 0: the volumes were made. 3: the old volumes were kept, because a file is rotten.\n\
            4: an error, or the volumes were made and have all but names that are not UTF-8.\n\n\
            Example:\n  rs_files split photos -n 5 --lose 2 -o parts      \
            writes parts/volume0001.rsv to parts/volume0005.rsv",
    options: &[
        Choice(
            "output",
            Some('o'),
            Needed("FOLDER"),
            "Write the volumes into this folder",
        ),
        Choice("volumes", Some('n'), Needed("COUNT"), VOLUMES_HELP),
        Choice(
            "lose",
            None,
            One("COUNT"),
            "Allow this many volumes to be lost [default: 1]",
        ),
        BLOCK,
        ACCEPT,
        SKIP_NAMES,
        REPLACE,
        MEMORY,
        JSON,
        PROGRESS,
        QUIET,
    ],
};

const UPDATE: Form = Form {
    name: "update",
    paths: ("VOLUME", "The volume that create made"),
    about: "Make the volume of create again after files were changed",
    after: "Status 0: the volume was made. 3: the old volume was kept, because a file is rotten.\n\
            4: an error, or the volume was made and protects all but names that are not UTF-8.\n\n\
            Example:\n  rs_files update photos.rsv",
    options: &[
        Choice(
            "recovery",
            Some('r'),
            One("COUNT"),
            "Make this many recovery blocks, e.g. 300 or 20% of the blocks (at least 2) [default: the share of before]",
        ),
        Choice(
            "block",
            None,
            One("BYTES"),
            "Cut the files into blocks of this size, e.g. 64K [default: the size that was given before]",
        ),
        ACCEPT,
        SKIP_NAMES,
        FOLDER,
        MEMORY,
        JSON,
        PROGRESS,
        QUIET,
    ],
};

const VERIFY: Form = Form {
    name: "verify",
    paths: VOLUMES,
    about: "Look for damage",
    after: "Status 0: all is whole. 1: damage that can be repaired. 3: damage that cannot be repaired. 4: an error.\n\n\
            Examples:\n  rs_files verify photos.rsv\n  rs_files verify photos.rsv --only photos/2024",
    options: &[
        FOLDER,
        SEARCH,
        ONLY,
        Choice(
            "quick",
            None,
            Nothing,
            "Compare only sizes and times, and read no file: wrong bytes are not seen",
        ),
        MEMORY,
        JSON,
        PROGRESS,
        QUIET,
    ],
};

const REPAIR: Form = Form {
    name: "repair",
    paths: VOLUMES,
    about: "Restore damaged and missing files in their folder, and damaged volumes",
    after: "Of volumes of split, only damaged volumes are written again, unless --folder is given.\n\n\
            Status 0: all is whole now. 1: the files are whole, but a damaged volume cannot be written again.\n\
            3: blocks are lacking for some files. 4: another error, for example a file that cannot be written.\n\
            All other files are restored.\n\n\
            Examples:\n  rs_files repair photos.rsv\n  rs_files repair photos.rsv --only photos/2024/beach.jpg",
    options: &[FOLDER, SEARCH, ONLY, MEMORY, JSON, PROGRESS, QUIET],
};

const RESTORE: Form = Form {
    name: "restore",
    paths: VOLUMES,
    about: "Restore files into another folder",
    after: "Volumes of split give all files. A volume of create gives those that are damaged or missing.\n\
            Files that are already there, with the right bytes, are named and not written again.\n\n\
            Status 0: all these files are there now. 3: blocks are lacking for some files.\n\
            4: another error, for example a file with other bytes is in the way. All other files are restored.\n\n\
            Examples:\n  rs_files restore parts/*.rsv --to restored\n  \
            rs_files restore photos.rsv --to restored --only photos/2024",
    options: &[
        Choice(
            "to",
            None,
            Needed("FOLDER"),
            "Write the files into this folder",
        ),
        Choice(
            "folder",
            None,
            One("FOLDER"),
            "Files of the set are in this folder [default: the folder of the volume of create]",
        ),
        SEARCH,
        ONLY,
        Choice("force", None, Nothing, "Overwrite files that exist"),
        MEMORY,
        JSON,
        PROGRESS,
        QUIET,
    ],
};

const INFO: Form = Form {
    name: "info",
    paths: ("VOLUME", "Volumes, each of which is read by itself"),
    about: "Show what a volume describes",
    after: "Example:\n  rs_files info photos.rsv",
    options: &[MEMORY, JSON],
};

/// All commands.
pub const COMMANDS: [Form; 7] = [CREATE, SPLIT, UPDATE, VERIFY, REPAIR, RESTORE, INFO];
