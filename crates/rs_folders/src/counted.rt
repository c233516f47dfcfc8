//! Numbers of things in messages.
use rs_volumes::description::Kind;
use std::fmt;

/// A number of things with the noun for one of them. It is shown as `1 file` or `2 files`.
#[derive(Clone, Copy)]
pub struct Counted(pub u64, pub &'static str);

impl fmt::Display for Counted {
    fn fmt<W: fmt::Write>(&self, f: &mut fmt::Formatter<W>) -> fmt::Result {
        let Counted(number, noun) = *self;
        let ending = if number == 1 { "" } else { "s" };
        write!(f, "{number} {noun}{ending}")
    }
}

/// Numbers of entries of a set. They are shown as `2 files, 1 symbolic link`, without the kinds of which there are
/// none.
#[derive(Clone, Copy)]
pub struct Kinds {
    /// The number of files.
    pub files: u64,
    /// The number of symbolic links.
    pub links: u64,
    /// The number of empty folders.
    pub folders: u64,
}

impl Kinds {
    /// Returns numbers that are all 0.
    pub fn none() -> Kinds {
        Kinds {
            files: 0,
            links: 0,
            folders: 0,
        }
    }

    /// Returns whether there are no entries.
    pub fn is_empty(&self) -> bool {
        self.files == 0 && self.links == 0 && self.folders == 0
    }

    /// Counts an entry of this kind.
    pub fn add(&mut self, kind: Kind) {
        let number = match kind {
            Kind::File => &mut self.files,
            Kind::Link => &mut self.links,
            Kind::Folder => &mut self.folders,
        };
        *number = number.saturating_add(1);
    }
}

impl fmt::Display for Kinds {
    fn fmt<W: fmt::Write>(&self, f: &mut fmt::Formatter<W>) -> fmt::Result {
        let mut separator = "";
        if self.files > 0 || self.is_empty() {
            write!(f, "{}", Counted(self.files, "file"))?;
            separator = ", ";
        }
        if self.links > 0 {
            write!(f, "{separator}{}", Counted(self.links, "symbolic link"))?;
            separator = ", ";
        }
        if self.folders > 0 {
            write!(f, "{separator}{}", Counted(self.folders, "folder"))?;
        }
        Ok(())
    }
}
