ghost use Rattle.std.specs.Prelude.{◌≡◌, [], map, Bool, IfOk, OnOk};
ghost use Rattle.ob_tree.specs.Programs.{ParamsTree, ItemTree};
ghost use Rattle.ob_tree.specs.ExpressionView.{spec_tree};
ghost use Rattle.ob_tree.specs.ProgramView.{param_tree, item_tree};
ghost use Rattle.ob_library.specs.Lists.{block_trees};
ghost use Rattle.ob_library.specs.Nodes.{no_place, base_tree, block};
ghost use Rattle.ob_library.specs.Library.{name_of, base_of, stars_of, items_of, tree_of};

use crate::copies::{memcpy, memset};
use crate::decimal::{print_d, print_u};
use crate::numbers::atoi;
use crate::params::params;
use crate::printing::{print_s, puts};
use crate::statements::block_of;
use crate::strings::{strcat, strcmp, strcpy, strlen};
use crate::types::{Base, NOWHERE, spec, text_of};
use ob_base::{NoMemory, Text};
use ob_tree::{BlockItem, Item, ItemNode, Param, Params, Spec};
use std::alloc::Global;

/// A function of the library in C: those of C99 7.20.1.2 and 7.21 that have these names, `puts` (7.19.7.10), and three
/// that print what a format of `printf` asks for (7.19.6.1).
#[derive(Clone, Copy)]
pub enum LibraryFunction {
    Strlen,
    Strcpy,
    Strcat,
    Strcmp,
    Memset,
    Memcpy,
    Puts,
    Atoi,
    PrintU,
    PrintD,
    PrintS,
}

impl LibraryFunction {
    /// The name, in ASCII.
    pub fn name(self) -> &'static [u8]
        ensures { result.now ≡ name_of self }
    {
        match self {
            LibraryFunction::Strlen => b"strlen",
            LibraryFunction::Strcpy => b"strcpy",
            LibraryFunction::Strcat => b"strcat",
            LibraryFunction::Strcmp => b"strcmp",
            LibraryFunction::Memset => b"memset",
            LibraryFunction::Memcpy => b"memcpy",
            LibraryFunction::Puts => b"puts",
            LibraryFunction::Atoi => b"atoi",
            LibraryFunction::PrintU => b"__print_u",
            LibraryFunction::PrintD => b"__print_d",
            LibraryFunction::PrintS => b"__print_s",
        }
    }

    fn base(self) -> Base
        ensures { result ≡ base_of self }
    {
        match self {
            LibraryFunction::Strlen => Base::Size,
            LibraryFunction::Strcpy => Base::Char,
            LibraryFunction::Strcat => Base::Char,
            LibraryFunction::Memset => Base::Void,
            LibraryFunction::Memcpy => Base::Void,
            _ => Base::Int,
        }
    }

    fn stars(self) -> u32
        ensures { result ≡ stars_of self }
    {
        match self {
            LibraryFunction::Strcpy => 1,
            LibraryFunction::Strcat => 1,
            LibraryFunction::Memset => 1,
            LibraryFunction::Memcpy => 1,
            _ => 0,
        }
    }

    fn put_items(self, alloc: Global, items: &mut Vec<BlockItem>) -> Result<(), NoMemory>
        requires { items.old.items ≡ [] }
        ensures { OnOk result (block_trees items.new.items ≡ items_of self) }
    {
        match self {
            LibraryFunction::Strlen => strlen(alloc, items),
            LibraryFunction::Strcpy => strcpy(alloc, items),
            LibraryFunction::Strcat => strcat(alloc, items),
            LibraryFunction::Strcmp => strcmp(alloc, items),
            LibraryFunction::Memset => memset(alloc, items),
            LibraryFunction::Memcpy => memcpy(alloc, items),
            LibraryFunction::Puts => puts(alloc, items),
            LibraryFunction::Atoi => atoi(alloc, items),
            LibraryFunction::PrintU => print_u(alloc, items),
            LibraryFunction::PrintD => print_d(alloc, items),
            LibraryFunction::PrintS => print_s(alloc, items),
        }
    }

    fn items(self, alloc: Global) -> Result<Vec<BlockItem>, NoMemory>
        ensures { IfOk result (λ items. block_trees items.items ≡ items_of self) }
    {
        let mut items = Vec::new(alloc);
        self.put_items(alloc, &mut items)?;
        Ok(items)
    }

    fn heading(self, alloc: Global) -> Result<(Spec, Text), NoMemory>
        ensures spec { IfOk result (λ h. spec_tree h.0 ≡ base_tree (base_of self)) }
        ensures name { IfOk result (λ h. h.1 ≡ name_of self) }
    {
        let name = text_of(alloc, self.name())?;
        let spec = spec(alloc, self.base())?;
        Ok((spec, name))
    }

    /// The function's tree. Every place in it is the greatest of `u32`, and every line 0.
    ///
    /// Takes memory for the tree. `NoMemory` says that there was too little.
    #[tactic(auto, unfolding(crate::specs::Library::tree_of))]
    pub fn tree(self, alloc: Global) -> Result<Item, NoMemory>
        ensures { IfOk result (λ i. item_tree i ≡ tree_of self) }
    {
        let params = params(alloc, self)?;
        let items = self.items(alloc)?;
        let (spec, name) = self.heading(alloc)?;
        Ok(item(spec, self.stars(), name, params, items))
    }
}

fn item(spec: Spec, stars: u32, name: Text, params: Vec<Param>, items: Vec<BlockItem>) -> Item
    ensures { item_tree result ≡ ItemTree.Function no_place 0 Bool.false (spec_tree spec) stars name no_place (ParamsTree.Listed (map param_tree params.items)) (block (block_trees items.items)) }
{
    let node = ItemNode::Function {
        stars,
        name,
        at: NOWHERE,
        params: Params::List(params),
        body: block_of(items),
    };
    Item {
        first: NOWHERE,
        line: 0,
        fixed: false,
        spec,
        node,
    }
}
