// Sizes of a bank at the scanned bus, tried one after another over one assembly of the network.
ghost use Rattle.std.specs.Prelude.{◌≡◌, ◌+◌, ◌≤ℤ◌, pos, length, slice_get, All, IfOk, IfSome, IfNone, MatchOption};
ghost use Rattle.std.specs.Option.{option_map};
ghost use Rattle.network_theory.specs.Live.{Live};
ghost use Rattle.net_branch.specs.Exact.{exact_network};
ghost use Rattle.net_branch.specs.Whole.{IsWholeNetwork};
ghost use Rattle.band_subdivision.specs.ScanSpec.{IsScanSpec};
ghost use Rattle.study_variants.specs.Scratch.{NoSumIsOut, scratch_row};
ghost use Rattle.study_variants.specs.Sizes.{AreCandidatesOf, size_row, IsSafe};

use crate::size_row::{SizeRow, count_boxes};
use band_subdivision::{Scan, ScanSpec};
use complex_interval::Enclosure;
use element_parts::{power_in, susceptance_of_rating};
use fixed_decimal::Decimal;
use net_branch::{Network, NodeId};
use sqlite_items::Items;
use std::alloc::{AllocError, Global};
use std::marker::Model;

/// A network that is scanned with a bank at its driven node, in one size after another. Contracts see the network with its node
/// ordering, what is asked, the sizes in MVAr, and how many of them have been given. All its memory is taken when it is made.
#[derive(Drop)]
pub struct Candidates<E: Enclosure> {
    scan: Scan<E>,
    mva: Decimal,
    sizes: Items<Decimal>,
    given: usize,
}

impl<E: Enclosure> Model for Candidates<E> {
    ghost use Rattle.study_variants.specs.Sizes.{Sizing, sizing_of, IsSizing};

    ghost Value = { Sizing };

    ghost view = { λ c. sizing_of c.scan c.sizes c.given };

    ghost invariant = { λ c. IsSizing c.scan c.mva c.sizes c.given };
}

impl<E: Enclosure> Candidates<E> {
    /// The network with a bank at the driven node, which is live, in each of these sizes, all above 0. None has been given yet.
    pub fn new(
        alloc: Global,
        network: &Network,
        driven: NodeId,
        spec: ScanSpec,
        sizes: &[Decimal],
    ) -> Result<Candidates<E>, AllocError>
        requires whole { IsWholeNetwork network.now }
        requires live { Live (exact_network network.now) driven.number }
        requires spec { IsScanSpec spec }
        requires sizes { All (λ q. pos 1 ≤ℤ q) sizes.now }
        ensures { IfOk result (λ c. AreCandidatesOf (exact_network network.now) driven.number spec sizes.now c) }
    {
        let mva = spec.mva;
        let scan = Scan::new(alloc, network, driven, spec)?;
        let sizes = Items::from_slice(alloc, sizes)?;
        Ok(Candidates {
            scan,
            mva,
            sizes,
            given: 0,
        })
    }

    /// The next size with the counts of its boxes, or none where each size was given. Where none of its boxes is a peak or undecided,
    /// at every order of the band the impedance of the network with that bank exists and is within the threshold. Where no sum is out of
    /// range, the counts are those of a scan of that network from scratch. It takes no memory.
    pub fn next_size(&mut self) -> Option<SizeRow>
        ensures row { result ≡ option_map (size_row E.SCALE self.old) (slice_get self.old.sizes self.old.given) }
        ensures none { IfNone result (self.old.given ≡ length self.old.sizes) }
        ensures given { MatchOption result (self.new ≡ self.old) (λ row. self.new ≡ record self.old { given = self.old.given + 1 }) }
        ensures safe { IfSome result (λ row. row.peaks ≡ 0 → row.undecided ≡ 0 → IsSafe self.old row.size) }
        ensures scratch { IfSome result (λ row. NoSumIsOut E.SCALE self.old row.size → row ≡ scratch_row E.SCALE self.old row.size) }
    {
        if self.given >= self.sizes.len() {
            return None;
        }
        let size = self.sizes.as_slice()[self.given];
        let rating = power_in(None, size);
        self.scan.restart(susceptance_of_rating(rating, self.mva));
        self.given += 1;
        Some(count_boxes(&mut self.scan, size))
    }
}
