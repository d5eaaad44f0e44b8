// Boards over the three gauges, opened on one network.
use delays::faults::DelayFault;
use gauge::count::Count;
use gauge::early::Early;
use gauge::gauges::Gauge;
use gauge::late::Late;
use gauge::matrix::EdgeMatrix;
use gauge::semiring::Semiring;
use network::limit::MAX_SIGNALS;
use network::network::Network;
use opening::board::Board;
use opening::open::{Opened, open};
use std::alloc::{AllocError, Global};
use waiting::strip::BitStrip;

/// The three tables of a board.
// Three tables, not one of triples: values are written while starts and weights are read.
#[derive(Drop)]
pub struct Tables<G> {
    pub starts: Vec<EdgeMatrix<G>>,
    pub weights: Vec<EdgeMatrix<G>>,
    pub values: Vec<EdgeMatrix<G>>,
}

impl<G: Gauge + Clone> Tables<G> {
    pub fn new(heap: Global) -> Result<Tables<G>, AllocError> {
        let none: EdgeMatrix<G> = EdgeMatrix::zero();
        Ok(Tables {
            starts: vec![in heap; none; MAX_SIGNALS]?,
            weights: vec![in heap; none; 4 * MAX_SIGNALS]?,
            values: vec![in heap; none; MAX_SIGNALS]?,
        })
    }

    pub fn open(&mut self, network: &mut Network, file: &[u8]) -> Result<Opened, DelayFault> {
        let mut strip = BitStrip::new();
        let board = Board {
            network,
            starts: &mut self.starts,
            weights: &mut self.weights,
            values: &mut self.values,
        };
        open(board, file, &mut strip)
    }
}

/// The tables of a board over each gauge.
#[derive(Drop)]
pub struct Boards {
    pub late: Tables<Late>,
    pub early: Tables<Early>,
    pub count: Tables<Count>,
}

impl Boards {
    pub fn new(heap: Global) -> Result<Boards, AllocError> {
        Ok(Boards {
            late: Tables::new(heap)?,
            early: Tables::new(heap)?,
            count: Tables::new(heap)?,
        })
    }

    /// Opens each board; a delay table that one refuses, all refuse alike.
    pub fn open(&mut self, network: &mut Network, file: &[u8]) -> Result<Opened, DelayFault> {
        self.late.open(network, file)?;
        self.early.open(network, file)?;
        self.count.open(network, file)
    }
}
