//! Whether a run may begin.
ghost use Rattle.std.specs.Prelude.{[], List, Option, map, IfErr, IfOk};
ghost use Rattle.aff_model.specs.Content.{Content};
ghost use Rattle.aff_command.specs.Devices.{shown};
ghost use Rattle.aff_top.specs.Outcomes.{IsFaultOf, IsReady, ShownExaminer, facts, request};

use crate::fault::Fault;
use crate::text::read_work;
use crate::vacant::look_into;
use aff_command::{acquisition, first_block, first_size, refused};
use aff_model::Plan;
use aff_names::Uuid;
use aff_outside::{Device, Folder, Source};
use aff_script::Script;
use std::alloc::Global;

/// The volume that a run makes, the plan by which it goes, and what sessions ask meanwhile.
#[derive(Drop)]
pub struct Request {
    pub uuid: Uuid,
    pub plan: Plan,
    pub script: Script,
}

/// Looks at the words, then at the devices, into the folder, and at all of the source's text. No device is read.
pub fn read_request<F: Folder, S: Source>(
    alloc: Global,
    words: &[&str],
    devices: &[Box<dyn Device>],
    folder: &mut F,
    source: &mut S,
) -> Result<Request, Fault>
    ensures ready { IfOk result (λ r. (case : Option Content) (examiners : List ShownExaminer) → IsReady (request (map (λ w. w.now) words.now) case F.tells F.Receipt.told)
        (facts F.Folder S.Source (map (λ d. shown (device_content d) (device_block d) (device_size d) (device_faults d)) devices.now) devices.now examiners folder.old source.old [])
        (facts F.Folder S.Source (map (λ d. shown (device_content d) (device_block d) (device_size d) (device_faults d)) devices.now) devices.now examiners folder.new source.new [])
        r.uuid r.plan r.script) }
    ensures refused { IfErr result (λ fault. (case : Option Content) (examiners : List ShownExaminer) → IsFaultOf fault (request (map (λ w. w.now) words.now) case F.tells F.Receipt.told)
        (facts F.Folder S.Source (map (λ d. shown (device_content d) (device_block d) (device_size d) (device_faults d)) devices.now) devices.now examiners folder.old source.old [])
        (facts F.Folder S.Source (map (λ d. shown (device_content d) (device_block d) (device_size d) (device_faults d)) devices.now) devices.now examiners folder.new source.new [])) }
{
    let Some((_, uuid)) = acquisition(words) else {
        return Err(Fault::Usage);
    };
    if let Some(refusal) = refused(devices) {
        return Err(Fault::Devices(refusal));
    }
    if let Err(fault) = look_into(folder) {
        return Err(fault);
    }
    match read_work(alloc, source, first_size(devices), first_block(devices)) {
        Ok(work) => Ok(Request {
            uuid,
            plan: work.plan,
            script: work.script,
        }),
        Err(fault) => Err(fault),
    }
}
