//! Worked runs under SHA-256, whose digests see the order of bytes: scripts, and the reports of
//! their runs, which an independent program gave.

/// Runs of four members, and of five in two epochs.
pub(crate) const HASHED: &str = "== 0 sixteen messages, a block is handed out
cluster 4 3
propose 1 6869
deliver 0 0
deliver 1 0
deliver 4 0
deliver 2 2
deliver 4 2
deliver 8 0
deliver 9 1
deliver 9 2
deliver 5 2
deliver 10 2
deliver 12 2
--
open 0
hand 0 0 ff354cf9c98f186dee4cd1958ac80f9137f10971067bd2da8dedd6176d591ba7
open 1
hand 1 0 ff354cf9c98f186dee4cd1958ac80f9137f10971067bd2da8dedd6176d591ba7
open 2
hand 2 0 ff354cf9c98f186dee4cd1958ac80f9137f10971067bd2da8dedd6176d591ba7
open 3
hand 3 0 ff354cf9c98f186dee4cd1958ac80f9137f10971067bd2da8dedd6176d591ba7
step 2
sent 0 1 0 shard 0 e9a2eb1a34683c9ee3a4c459c3d69ab5270bc44c68375596ee8a4207ac72d681
sent 1 1 all shard 1 6f56ccb7eba2cc2a66d4d9143d60ccf672454b65c2ec53625c7733e2c1e4bbe2
sent 2 1 2 shard 2 2075d22aaa71fe15b479c6514d60f3996b70c814fa580398be3e970e1b59f20e
sent 3 1 3 shard 3 4fb261e662790edb69c464f0f43f55700281ea856bd8412a836cde1d09a5451b
sent 4 1 all vote 1 notarize 1 4b83d3b9fd5fe80a1fff4e00e30620087f7d4968b6fa3c736d89ae5b34295155
step 3
sent 5 0 all shard 0 e9a2eb1a34683c9ee3a4c459c3d69ab5270bc44c68375596ee8a4207ac72d681
step 4
step 5
sent 6 0 all vote 0 notarize 1 b0dd59acc0ab55a123d6c6b5449be7626223fea9c77c6fe470d3a9d483c820c3
step 6
sent 7 2 all shard 2 2075d22aaa71fe15b479c6514d60f3996b70c814fa580398be3e970e1b59f20e
step 7
sent 8 2 all vote 2 notarize 1 59a999791dd8cec1dafb399966c3aa00ecac1a658cbc6f7e60a3bc58fbd090e8
step 8
sent 9 0 all cert notarize 1 3 48eb75d03c9ece38172886982978bf546bd0b3565da08adb176adacaa3cbe7a8
sent 10 0 all vote 0 finalize 1 cf5854751418b50c5ac1dc9ed59dad96038ce0260e9cbf3dc629be4c4e6b1ca3
step 9
sent 11 1 all cert notarize 1 3 48eb75d03c9ece38172886982978bf546bd0b3565da08adb176adacaa3cbe7a8
sent 12 1 all vote 1 finalize 1 72ee1809d4525e55410218ad5adb80568f020d54f0b9a7533732bee5131b6431
step 10
sent 13 2 all cert notarize 1 3 48eb75d03c9ece38172886982978bf546bd0b3565da08adb176adacaa3cbe7a8
sent 14 2 all ask b7d0c0c91f5c05e623639272d4d2d32335b6ad203819e8e08a1a9da6ce7e971c
step 11
sent 15 2 all vote 2 finalize 1 6d47c0da76cc09d931cbe540fbaf21935d411163d24bd462afae5ee30c647c41
step 12
step 13
sent 16 2 all cert finalize 1 3 dcf7453a95a92c69ebac77cf465af0955c7487880c6342821ae2fa75f65425e0
hand 2 1 f546062ba1da8aceae130abaff68bdbc95b4fcba69daa66cfdac14f44bac836c
member 0 live acked none notes 5
member 1 live acked none notes 6
member 2 live acked none notes 6
member 3 live acked none notes 0
chain 0 ff354cf9c98f186dee4cd1958ac80f9137f10971067bd2da8dedd6176d591ba7
chain 1 f546062ba1da8aceae130abaff68bdbc95b4fcba69daa66cfdac14f44bac836c
done 12
== 0 a stop behind the open gate, and a start that hands out again
cluster 4 3
propose 1 6869
deliver 0 0
deliver 1 0
deliver 4 0
deliver 2 2
deliver 4 2
deliver 8 0
deliver 9 1
deliver 9 2
deliver 5 2
deliver 10 2
cut 3 1 0 deliver 12 2
restart 2
--
open 0
hand 0 0 ff354cf9c98f186dee4cd1958ac80f9137f10971067bd2da8dedd6176d591ba7
open 1
hand 1 0 ff354cf9c98f186dee4cd1958ac80f9137f10971067bd2da8dedd6176d591ba7
open 2
hand 2 0 ff354cf9c98f186dee4cd1958ac80f9137f10971067bd2da8dedd6176d591ba7
open 3
hand 3 0 ff354cf9c98f186dee4cd1958ac80f9137f10971067bd2da8dedd6176d591ba7
step 2
sent 0 1 0 shard 0 e9a2eb1a34683c9ee3a4c459c3d69ab5270bc44c68375596ee8a4207ac72d681
sent 1 1 all shard 1 6f56ccb7eba2cc2a66d4d9143d60ccf672454b65c2ec53625c7733e2c1e4bbe2
sent 2 1 2 shard 2 2075d22aaa71fe15b479c6514d60f3996b70c814fa580398be3e970e1b59f20e
sent 3 1 3 shard 3 4fb261e662790edb69c464f0f43f55700281ea856bd8412a836cde1d09a5451b
sent 4 1 all vote 1 notarize 1 4b83d3b9fd5fe80a1fff4e00e30620087f7d4968b6fa3c736d89ae5b34295155
step 3
sent 5 0 all shard 0 e9a2eb1a34683c9ee3a4c459c3d69ab5270bc44c68375596ee8a4207ac72d681
step 4
step 5
sent 6 0 all vote 0 notarize 1 b0dd59acc0ab55a123d6c6b5449be7626223fea9c77c6fe470d3a9d483c820c3
step 6
sent 7 2 all shard 2 2075d22aaa71fe15b479c6514d60f3996b70c814fa580398be3e970e1b59f20e
step 7
sent 8 2 all vote 2 notarize 1 59a999791dd8cec1dafb399966c3aa00ecac1a658cbc6f7e60a3bc58fbd090e8
step 8
sent 9 0 all cert notarize 1 3 48eb75d03c9ece38172886982978bf546bd0b3565da08adb176adacaa3cbe7a8
sent 10 0 all vote 0 finalize 1 cf5854751418b50c5ac1dc9ed59dad96038ce0260e9cbf3dc629be4c4e6b1ca3
step 9
sent 11 1 all cert notarize 1 3 48eb75d03c9ece38172886982978bf546bd0b3565da08adb176adacaa3cbe7a8
sent 12 1 all vote 1 finalize 1 72ee1809d4525e55410218ad5adb80568f020d54f0b9a7533732bee5131b6431
step 10
sent 13 2 all cert notarize 1 3 48eb75d03c9ece38172886982978bf546bd0b3565da08adb176adacaa3cbe7a8
sent 14 2 all ask b7d0c0c91f5c05e623639272d4d2d32335b6ad203819e8e08a1a9da6ce7e971c
step 11
sent 15 2 all vote 2 finalize 1 6d47c0da76cc09d931cbe540fbaf21935d411163d24bd462afae5ee30c647c41
step 12
step 13
step 14
found 6
sent 16 2 all cert finalize 1 3 dcf7453a95a92c69ebac77cf465af0955c7487880c6342821ae2fa75f65425e0
hand 2 0 ff354cf9c98f186dee4cd1958ac80f9137f10971067bd2da8dedd6176d591ba7
hand 2 1 f546062ba1da8aceae130abaff68bdbc95b4fcba69daa66cfdac14f44bac836c
member 0 live acked none notes 5
member 1 live acked none notes 6
member 2 live acked none notes 6
member 3 live acked none notes 0
chain 0 ff354cf9c98f186dee4cd1958ac80f9137f10971067bd2da8dedd6176d591ba7
chain 1 f546062ba1da8aceae130abaff68bdbc95b4fcba69daa66cfdac14f44bac836c
done 13
== 0 the next epoch's first leader
epochs 5 3 1 2
members 0 1 2 3
members 1 2 3 4
propose 1 6869
deliver 0 0
deliver 1 0
deliver 4 0
deliver 2 2
deliver 4 2
deliver 8 0
deliver 9 1
deliver 9 2
deliver 5 2
deliver 10 2
deliver 12 2
propose 2 63
--
open 0
hand 0 0 ff354cf9c98f186dee4cd1958ac80f9137f10971067bd2da8dedd6176d591ba7
open 1
hand 1 0 ff354cf9c98f186dee4cd1958ac80f9137f10971067bd2da8dedd6176d591ba7
open 2
hand 2 0 ff354cf9c98f186dee4cd1958ac80f9137f10971067bd2da8dedd6176d591ba7
open 3
hand 3 0 ff354cf9c98f186dee4cd1958ac80f9137f10971067bd2da8dedd6176d591ba7
open 4
hand 4 0 ff354cf9c98f186dee4cd1958ac80f9137f10971067bd2da8dedd6176d591ba7
step 4
sent 0 1 0 shard 0 e9a2eb1a34683c9ee3a4c459c3d69ab5270bc44c68375596ee8a4207ac72d681
sent 1 1 all shard 1 6f56ccb7eba2cc2a66d4d9143d60ccf672454b65c2ec53625c7733e2c1e4bbe2
sent 2 1 2 shard 2 2075d22aaa71fe15b479c6514d60f3996b70c814fa580398be3e970e1b59f20e
sent 3 1 3 shard 3 4fb261e662790edb69c464f0f43f55700281ea856bd8412a836cde1d09a5451b
sent 4 1 all vote 1 notarize 1 4b83d3b9fd5fe80a1fff4e00e30620087f7d4968b6fa3c736d89ae5b34295155
step 5
sent 5 0 all shard 0 e9a2eb1a34683c9ee3a4c459c3d69ab5270bc44c68375596ee8a4207ac72d681
step 6
step 7
sent 6 0 all vote 0 notarize 1 b0dd59acc0ab55a123d6c6b5449be7626223fea9c77c6fe470d3a9d483c820c3
step 8
sent 7 2 all shard 2 2075d22aaa71fe15b479c6514d60f3996b70c814fa580398be3e970e1b59f20e
step 9
sent 8 2 all vote 2 notarize 1 59a999791dd8cec1dafb399966c3aa00ecac1a658cbc6f7e60a3bc58fbd090e8
step 10
sent 9 0 all cert notarize 1 3 48eb75d03c9ece38172886982978bf546bd0b3565da08adb176adacaa3cbe7a8
sent 10 0 all vote 0 finalize 1 cf5854751418b50c5ac1dc9ed59dad96038ce0260e9cbf3dc629be4c4e6b1ca3
step 11
sent 11 1 all cert notarize 1 3 48eb75d03c9ece38172886982978bf546bd0b3565da08adb176adacaa3cbe7a8
sent 12 1 all vote 1 finalize 1 72ee1809d4525e55410218ad5adb80568f020d54f0b9a7533732bee5131b6431
step 12
sent 13 2 all cert notarize 1 3 48eb75d03c9ece38172886982978bf546bd0b3565da08adb176adacaa3cbe7a8
sent 14 2 all ask b7d0c0c91f5c05e623639272d4d2d32335b6ad203819e8e08a1a9da6ce7e971c
step 13
sent 15 2 all vote 2 finalize 1 6d47c0da76cc09d931cbe540fbaf21935d411163d24bd462afae5ee30c647c41
step 14
step 15
sent 16 2 all cert finalize 1 3 dcf7453a95a92c69ebac77cf465af0955c7487880c6342821ae2fa75f65425e0
hand 2 1 f546062ba1da8aceae130abaff68bdbc95b4fcba69daa66cfdac14f44bac836c
step 16
sent 17 2 1 shard 0 f31ad946089f6a7c84cdbb4848ab87f66540e3e7c7565a6819595a377c3d4be2
sent 18 2 all shard 1 e345a763e27fd0cbc69eab23de666b78f1da58d04d45cad17e8bc6f631ee16ad
sent 19 2 3 shard 2 5f06b9b4cc45ed81fbd9b59583e2dac35291e94b068e330cabb5a9c3b2e9df32
sent 20 2 4 shard 3 ec513c935529d711a1171f199adb6f2ae5e0bf5405643a2beb6224dbba576940
sent 21 2 all vote 2 notarize 1/1 2834bfa901090c38d35cf067b0002178e3e4e21959be2effb4165937a695461f
member 0 live acked none notes 5
member 1 live acked none notes 6
member 2 live acked none notes 10
member 3 live acked none notes 0
member 4 live acked none notes 0
chain 0 ff354cf9c98f186dee4cd1958ac80f9137f10971067bd2da8dedd6176d591ba7
chain 1 f546062ba1da8aceae130abaff68bdbc95b4fcba69daa66cfdac14f44bac836c
done 13
";
