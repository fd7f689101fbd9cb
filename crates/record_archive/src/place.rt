//! The file in a folder into which records are put.
ghost use Rattle.std.specs.Prelude.{◌≡◌, ◌∷◌, ◌++◌, IfOk, string_bytes};

use std::alloc::{AllocError, Global};
use std::marker::Model;

/// A file in a folder. The folder is a path of names with `/` between them, and the file a name.
#[derive(Drop)]
pub struct Place {
    folder: Vec<u8>,
    file: Vec<u8>,
    /// The path of the file.
    path: String,
}

impl Model for Place {
    ghost use Rattle.std.specs.Prelude.{◌≡◌, ◌∷◌, ◌++◌, string_bytes};
    ghost use Rattle.record_archive.specs.Places.{PlaceValue};

    ghost Value = { PlaceValue };

    ghost invariant = { λ p. string_bytes p.path ≡ p.folder.items ++ 47 ∷ p.file.items };

    ghost view = { λ p. record { folder = p.folder.items; file = p.file.items } };
}

/// The path of a file in a folder. What is no text has none.
fn path_of(alloc: Global, folder: &[u8], file: &[u8]) -> Result<String, AllocError>
    ensures { IfOk result (λ path. string_bytes path ≡ folder.now ++ 47 ∷ file.now) }
{
    let mut path = Vec::with_capacity(alloc, folder.len().saturating_add(file.len()))?;
    path.extend_from_slice(folder)?;
    path.push(b'/')?;
    path.extend_from_slice(file)?;
    match String::from_utf8(path) {
        Ok(path) => Ok(path),
        Err(_) => Err(AllocError),
    }
}

impl Place {
    ghost use Rattle.std.specs.Prelude.{◌≡◌, IfOk};
    ghost use Rattle.record_archive.specs.Places.{path_text};

    /// A file of that name in that folder, both of which are names of printable ASCII.
    pub fn new(alloc: Global, folder: Vec<u8>, file: Vec<u8>) -> Result<Place, AllocError>
        ensures { IfOk result (λ p. p ≡ record { folder = folder.items; file = file.items }) }
    {
        let path = path_of(alloc, &folder, &file)?;
        Ok(Place { folder, file, path })
    }

    /// The folder's path.
    pub fn folder(&self) -> &[u8]
        ensures { result.now ≡ self.now.folder }
    {
        self.folder.as_slice()
    }

    /// The file's name.
    pub fn file(&self) -> &[u8]
        ensures { result.now ≡ self.now.file }
    {
        self.file.as_slice()
    }

    /// The file's path: the folder, `/`, and the file.
    pub fn path(&self) -> &str
        ensures { result.now ≡ path_text self.now }
    {
        let _ = &self.folder;
        let _ = &self.file;
        self.path.as_str()
    }
}
