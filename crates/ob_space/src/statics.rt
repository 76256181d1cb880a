ghost use Rattle.std.specs.Prelude.{◌≡◌, ◌+◌, ◌-◌, ◌<◌, [], length};
ghost use Rattle.std.specs.List.{All};
ghost use Rattle.ob_model.specs.Entries.{with_live};
ghost use Rattle.ob_code.specs.Layout.{static_base};
ghost use Rattle.ob_code.specs.Rules.{HasStatic, static_at};
ghost use Rattle.ob_statics.specs.Contents.{static_entries};
ghost use Rattle.ob_space.specs.Kept.{EndsBefore, static_entry};

use ob_frames::Frames;
use ob_lifetimes::Lifetimes;

/// Makes the static objects of an image, where there are no objects yet.
pub fn add_statics(frames: &Frames, living: &mut Lifetimes)
    requires most { living.old.most_statics ≡ length frames.now.statics }
    requires none { living.old.statics ≡ 0 }
    requires empty { living.old.entries ≡ [] }
    requires first { living.old.next ≡ 1 }
    ensures { living.new ≡ record living.old { statics = length frames.now.statics; entries = static_entries frames.now.statics; next = length frames.now.statics + 1 } }
{
    frames.law_framed();
    for i in 0..frames.statics() {
        add_static(frames, living, i + 1);
    }
}

// Makes one of them.
fn add_static(frames: &Frames, living: &mut Lifetimes, number: u32)
    requires exists { HasStatic frames.now.statics number }
    requires few { living.old.statics < living.old.most_statics }
    requires behind { All (EndsBefore (static_base frames.now.statics number)) living.old.entries }
    requires next { living.old.next ≡ number }
    ensures { living.new ≡ record living.old { statics = living.old.statics + 1; entries = with_live (static_entry (static_base frames.now.statics number) (static_at frames.now.statics (number - 1)).size number) living.old.entries; next = number + 1 } }
{
    frames.law_framed();
    living.add_static(frames.static_base(number), frames.static_size(number));
}
