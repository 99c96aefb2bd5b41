// Pages.
ghost use Rattle.std.specs.Prelude.{◌≡◌};

use dup_names::{Look, Path};
use std::alloc::Global;
use std::marker::Model;
use std::sync::Arc;

/// A page: its path, the version that it was rendered from, and its look, which is shared.
#[derive(Drop)]
pub struct Page {
    pub path: Path,
    pub version: u64,
    pub look: Arc<Look, Global>,
}

impl Model for Page {
    ghost use Rattle.dup_model.specs.Editions.{Page as Rendered};

    ghost Value = { Rendered };

    ghost view = { λ p. record { path = p.path; version = p.version; look = p.look.value } };
}

impl Page {
    /// The page of these parts. It takes no memory.
    pub fn new(path: Path, version: u64, look: Arc<Look, Global>) -> Page
        ensures { result ≡ record { path = path; version = version; look = look.value } }
    {
        Page {
            path,
            version,
            look,
        }
    }

    /// Its path.
    pub fn path(&self) -> &Path
        ensures { result.now ≡ self.now.path }
    {
        &self.path
    }

    /// The version that it was rendered from.
    pub fn version(&self) -> u64
        ensures { result ≡ self.now.version }
    {
        self.version
    }

    /// What it shows.
    pub fn look(&self) -> &Arc<Look, Global>
        ensures { result.now.value ≡ self.now.look }
    {
        &self.look
    }
}
