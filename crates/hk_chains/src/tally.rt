//! How much is held.

use crate::chains::Lost;
use hk_facts::Chain;
use hk_log::Version;
use hk_types::Time;

/// How much is held: rows of versions, ends of versions, and the bytes of the bodies of those rows. The numbers promise nothing;
/// tests compare them with a count of what is held.
#[derive(Clone, Copy, Debug, PartialEq, Eq)]
pub struct Tally {
    pub rows: u64,
    pub ends: u64,
    pub bytes: u64,
}

impl Tally {
    /// Nothing is held.
    pub fn none() -> Tally {
        Tally {
            rows: 0,
            ends: 0,
            bytes: 0,
        }
    }

    /// Counts a row more, whose body has so many bytes.
    pub fn add_row(&mut self, bytes: usize) {
        self.rows = self.rows.saturating_add(1);
        self.bytes = self.bytes.saturating_add(bytes as u64);
    }

    /// Counts an end more.
    pub fn add_end(&mut self) {
        self.ends = self.ends.saturating_add(1);
    }

    /// Counts what was removed no more.
    pub fn lose(&mut self, lost: &Lost) {
        self.rows = self.rows.saturating_sub(lost.rows);
        self.bytes = self.bytes.saturating_sub(lost.bytes);
        self.ends = self.ends.saturating_sub(lost.ends);
    }

    /// Counts a version no more, of which nothing is kept.
    fn lose_version(&mut self, version: &Version) {
        if let Some(row) = version.row() {
            self.rows = self.rows.saturating_sub(1);
            self.bytes = self.bytes.saturating_sub(row.body().len() as u64);
        }
        if version.died().is_some() {
            self.ends = self.ends.saturating_sub(1);
        }
    }

    /// Counts the versions of a chain no more whose end is known and at most `until`. Cost: O(n · log n), n versions.
    pub(crate) fn lose_until(&mut self, chain: &Chain, until: Time) {
        let mut after = None;
        for _ in 0..u64::MAX {
            let Some((born, version)) = chain.next(after) else {
                return;
            };
            match version.died() {
                Some(died) if died <= until => self.lose_version(version),
                _ => {}
            }
            after = Some(born);
        }
    }
}
