ghost use Rattle.std.specs.Prelude.{◌≡◌};
ghost use Rattle.sg_folder.specs.Names.{name_of};

use sg_base::Area;

/// The name of the area: its file's, and as it is printed.
pub fn area_name(area: Area) -> &'static str
    ensures { result.now ≡ name_of area }
{
    match area {
        Area::Home => "home",
        Area::Log0 => "log0",
        Area::Log1 => "log1",
    }
}
