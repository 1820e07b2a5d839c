//! What times are looked for.
use crate::group_numbers::Numbers;
use fp_flatnet::Windows;
use fp_model::{Instance, Member};
use std::marker::Model;

// Routes and groups whose times are looked for within windows, with the numbers of the groups.
//
// Contracts see the problem and the lists. The windows and the routes fit together, each leg has a
// window, and the groups are numbered.
#[derive(Drop)]
pub(crate) struct Task<'a> {
    pub instance: &'a Instance,
    pub windows: &'a Windows,
    pub routes: &'a [Vec<u32>],
    pub groups: &'a [Vec<Member>],
    pub numbers: Numbers,
}

impl<'a> Model for Task<'a> {
    ghost use Rattle.fp_base_lists.specs.Vectors.{lists_of};
    ghost use Rattle.fp_dispatch.specs.Rising.{IsTask};
    ghost use Rattle.fp_dispatch.specs.Tasks.{TaskModel};

    ghost Value = { TaskModel };

    ghost view = { λ t. record { problem = t.instance.now; table = t.windows.now; routes = lists_of t.routes.now; groups = lists_of t.groups.now; numbers = t.numbers } };

    ghost invariant = { λ t. IsTask t.instance.now t.windows.now (lists_of t.routes.now) (lists_of t.groups.now) t.numbers };
}
