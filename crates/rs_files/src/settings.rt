//! The request that the command line makes, and the exit statuses.
use rs_file_sets::cutting::Recovery;

/// The version of the program. A volume has the version of the program that made it.
pub const VERSION: &str = "1.4.0";

/// The largest number of volumes of `split`.
pub const MOST_VOLUMES: u32 = 1000;

/// The message about another number of volumes than 2 to [`MOST_VOLUMES`].
pub const WRONG_VOLUMES: &str = "--volumes: write a number from 2 to 1000";

/// The help of the option with the number of volumes.
pub const VOLUMES_HELP: &str = "Make this many volumes, from 2 to 1000";

/// The exit status if all is well.
pub const STATUS_WHOLE: u8 = 0;

/// The exit status if `verify` found damage that can be repaired, if `verify --quick` found a file that has changed or
/// is missing, or if `repair` cannot write a damaged volume again.
pub const STATUS_DAMAGED: u8 = 1;

/// The exit status if the command line is wrong.
pub const STATUS_USAGE: u8 = 2;

/// The exit status if files cannot be restored because too many blocks are lost, or if old volumes were kept because a
/// file is rotten.
pub const STATUS_LOST: u8 = 3;

/// The exit status after any other error. This includes names that could not be protected, and files that could not be
/// restored for another reason than lost blocks.
pub const STATUS_FAILED: u8 = 4;

/// The message about a command line that does not name the volume of `create`.
pub const NO_OUTPUT: &str = "create: say which volume to write, as -o SET.rsv";

/// The message about a command line that does not name exactly one volume for `update`.
pub const ONE_VOLUME: &str =
    "update: name one volume. The volumes of split are made again with split --force";

/// A command of the program.
#[derive(Clone, Copy)]
pub enum Action {
    /// Makes a volume with the recovery blocks of files.
    Create,
    /// Spreads the blocks of files over several volumes.
    Split,
    /// Makes the volume of a set again.
    Update,
    /// Looks for damage.
    Verify,
    /// Restores damaged and missing files in their folder.
    Repair,
    /// Restores files into another folder.
    Restore,
    /// Shows what a volume describes.
    Info,
}

/// A command with its options.
#[derive(Drop)]
pub struct Request {
    /// The command.
    pub action: Action,
    /// The files of `create` and `split`, or the volumes of the other commands.
    pub paths: Vec<String>,
    /// The volume that `create` writes, or the folder of `split`.
    pub output: Option<String>,
    /// The folder into which `restore` writes files.
    pub to: Option<String>,
    /// The folder in which the files of the set are.
    pub folder: Option<String>,
    /// Further folders in which lost files and blocks are looked for.
    pub search: Vec<String>,
    /// The names of the entries that the command is about: of files, or of folders with all that is in them. An empty
    /// list means all entries.
    pub only: Vec<String>,
    /// The names of files that are protected although their bytes changed and their times did not.
    pub accept: Vec<String>,
    /// The number of recovery blocks that `create` and `update` make. `None` means the default.
    pub recovery: Option<Recovery>,
    /// The size of a block in bytes. `None` means the default size.
    pub block_bytes: Option<u64>,
    /// The number of bytes of memory that may be used, approximately.
    pub memory: u64,
    /// The number of volumes of `split`.
    pub volumes: u32,
    /// How many volumes of `split` may be lost.
    pub lose: u32,
    /// Whether `verify` compares only sizes and times.
    pub quick: bool,
    /// Whether names that are not UTF-8 may be left out.
    pub skip_names: bool,
    /// Whether the result is printed as JSON.
    pub json: bool,
    /// Whether only errors are printed.
    pub quiet: bool,
    /// Whether files that exist may be overwritten. `update` has no option for this, and may always replace its volume.
    pub force: bool,
    /// Whether progress is shown on standard error.
    pub progress: bool,
}
