//! What the options of `pack configure` set.
ghost use Rattle.std.specs.Prelude.{◌≡◌, [], ◌∷◌, None};
ghost use Rattle.tk_pack_commands.specs.Options as spec;

use tk_packer::{Anchor, Fill, Pads, Request, Side};

/// The window beside which windows are to be packed.
#[derive(Clone, Copy)]
pub struct Beside {
    pub number: u64,
    /// Whether they come behind it (`-after`), or before it (`-before`).
    pub after: bool,
}

/// An option of `pack configure`.
#[derive(Clone, Copy)]
pub enum PackOption {
    Side,
    Anchor,
    Fill,
    Expand,
    Padx,
    Pady,
    Ipadx,
    Ipady,
    After,
    Before,
}

/// An option with what it is set to.
#[derive(Clone, Copy)]
pub enum PackSetting {
    Side(Side),
    Anchor(Anchor),
    Fill(Fill),
    Expand(bool),
    /// In pixels, as the other amounts.
    Padx(Pads),
    Pady(Pads),
    Ipadx(u32),
    Ipady(u32),
    /// `-after` or `-before`.
    Beside(Beside),
}

impl PackSetting {
    /// A request with the setting made, the rest as it was. A window to stand beside is no part of it.
    fn made(self, request: Request) -> Request
        ensures { result ≡ spec.with_setting request self }
    {
        match self {
            PackSetting::Side(side) => Request { side, ..request },
            PackSetting::Anchor(anchor) => Request { anchor, ..request },
            PackSetting::Fill(fill) => Request { fill, ..request },
            PackSetting::Expand(expand) => Request { expand, ..request },
            PackSetting::Padx(padx) => Request { padx, ..request },
            PackSetting::Pady(pady) => Request { pady, ..request },
            PackSetting::Ipadx(ipadx) => Request { ipadx, ..request },
            PackSetting::Ipady(ipady) => Request { ipady, ..request },
            PackSetting::Beside(_) => request,
        }
    }

    /// The window to stand beside that the setting names, else the one named before.
    fn sibling_or(self, named: Option<Beside>) -> Option<Beside>
        ensures { result ≡ spec.last_sibling named (self ∷ []) }
    {
        match self {
            PackSetting::Beside(beside) => Some(beside),
            _ => named,
        }
    }
}

/// A request with the settings made one after another: of an option that is set twice the last counts.
pub fn with_settings(settings: &[PackSetting], request: Request) -> Request
    ensures { result ≡ spec.with_settings settings.now request }
{
    let mut made = request;
    let mut rest = settings;
    while let Some((setting, others)) = rest.split_first() {
        made = setting.made(made);
        rest = others;
    }
    made
}

/// The last window to stand beside that the settings name, if one does.
pub fn last_sibling(settings: &[PackSetting]) -> Option<Beside>
    ensures { result ≡ spec.last_sibling None settings.now }
{
    let mut named = None;
    let mut rest = settings;
    while let Some((setting, others)) = rest.split_first() {
        named = setting.sibling_or(named);
        rest = others;
    }
    named
}
