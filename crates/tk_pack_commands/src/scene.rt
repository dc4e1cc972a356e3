use std::alloc::Global;
use tk_packer::PackTable;
use tk_tree::Windows;

/// An application's windows and packs, as they are read.
#[derive(Clone, Copy)]
pub struct Scene<'a> {
    pub alloc: Global,
    pub windows: &'a Windows,
    pub packs: &'a PackTable,
    pub owner: usize,
}
